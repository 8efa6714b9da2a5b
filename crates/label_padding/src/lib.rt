// The unused components of labels, tested with no way out
// between the words, so that the compiler takes several at once.
#![tactic(auto)]

ghost use Rattle.std.specs.Prelude.{◌≡◌, ◌+◌, ◌<◌, ◌≤◌, length, eqb};
ghost use Rattle.basics.specs.Limits.{max_depth, label_size};
ghost use Rattle.label_words.specs.Words.{words_fit};
ghost use Rattle.label_padding.specs.Padding.{rest_fits, unused_words};

use labels::Label;

// The bits that count of each word of a label where only the unused components are looked at,
// from place 15 - depth on: none of a used component, all of an unused one.
pub const UNUSED: [u16; 32] = [
    0, 0, 0, 0, 0, 0, 0, 0, 0, 0, 0, 0, 0, 0, 0, 0, 65535, 65535, 65535, 65535, 65535, 65535,
    65535, 65535, 65535, 65535, 65535, 65535, 65535, 65535, 65535, 65535,
];

// The bits of word w of a label that must not be there: all of an unused component, none of a used one.
#[tactic(auto, using(crate::proofs::Padding::rest_bits))]
fn unused_bits(unused: &[u16; 32], depth: usize, w: usize, word: u16) -> u16
    requires { (unused.now ≡ unused_words) × (depth ≤ max_depth) × (w < label_size) }
    ensures { eqb result 0 ≡ rest_fits depth w word }
{
    word & unused[w + Label::MAX_DEPTH - depth]
}

// The unused components of a label that stands at a place of a slice are 0.
#[tactic(auto, using(label_words::proofs::Words::words_start, label_words::proofs::Words::words_on, label_words::proofs::Words::words_end))]
pub fn rest_zero(unused: &[u16; 32], store: &[u16], at: usize, depth: usize) -> bool
    requires { (unused.now ≡ unused_words) × (at + label_size ≤ length store.now) × (depth ≤ max_depth) }
    ensures { result ≡ words_fit (rest_fits depth) store.now at label_size }
{
    let mut any: u16 = 0;
    for w in 0..Label::WORDS {
        any |= unused_bits(unused, depth, w, store[at + w]);
    }
    any == 0
}
