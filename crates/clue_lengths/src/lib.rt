// How many names each clue of a table has, counted once for all.
#![tactic(auto)]

ghost use Rattle.std.specs.Prelude.{◌≡◌, length, get_or};
ghost use Rattle.clue_lengths.specs.Lengths.{lengths_of};

use names::{Table, row_len};

// How many names each clue has.
#[tactic(auto, using(crate::proofs::Lengths::lengths_on, crate::proofs::Lengths::lengths_end), unfolding(crate::specs::Lengths::lengths_of))]
pub fn lengths_of(table: &Table) -> [usize; 64]
    ensures { result ≡ lengths_of table.now }
{
    let mut lengths = [0usize; 64];
    for (i, row) in table.iter().enumerate() {
        lengths[i] = row_len(row);
    }
    lengths
}

// The lengths of the clues as a slice.
pub fn lengths_slice(lengths: &[usize; 64]) -> &[usize]
    ensures { (result.now ≡ lengths.now) × (length result.now ≡ 64) }
{
    lengths
}

// How many names the clue of a name has, by the lengths of all.
pub fn length_of(lengths: &[usize], parent: usize) -> usize
    ensures { result ≡ get_or lengths.now parent 0 }
{
    lengths.get(parent).copied().unwrap_or(0)
}
