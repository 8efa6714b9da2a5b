// Words written over others of a lent slice, and labels of sixteen words.
#![tactic(auto)]

ghost use Rattle.std.specs.Prelude.{◌≡◌, ◌+◌, ◌≤◌, length, take, drop};
ghost use Rattle.basics.specs.Basics.{over};
ghost use Rattle.words.specs.Writing.{written};

// How many words a label has.
const LABEL_WORDS: usize = 16;

// Words written over the first words of a slice.
#[tactic(auto, unfolding(basics::specs::Basics::over))]
pub fn overwrite(words: &mut [u16], from: &[u16])
    requires { length from.now ≤ length words.old }
    ensures { words.new ≡ over from.now words.old }
{
    words[..from.len()].copy_from_slice(from);
}

// A label, sixteen words from a place on, written from a place of an output on.
#[tactic(auto, using(crate::proofs::Writing::written_part))]
pub fn put_label(from: &[u16], at: usize, out: &mut [u16], to: usize)
    requires { (at + 16 ≤ length from.now) × (to + 16 ≤ length out.old) }
    ensures { out.new ≡ written to (take 16 (drop at from.now)) out.old }
{
    out[to..to + LABEL_WORDS].copy_from_slice(&from[at..at + LABEL_WORDS]);
}
