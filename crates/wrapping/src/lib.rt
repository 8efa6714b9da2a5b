// Arithmetic that wraps, for the programs that test: a sum, and a number of a row as a word and as a byte.
#![tactic(auto)]

ghost use Rattle.std.specs.Prelude.{◌≡◌};
ghost use Rattle.wrapping.specs.Wrapping.{wrapped, word_at, byte_at};

use guards::item_at;

// The sum of two numbers; it wraps.
pub fn sum(a: usize, b: usize) -> usize
    ensures { result ≡ wrapped a b }
{
    a.wrapping_add(b)
}

// A number of a row as a word.
pub fn half(row: &[usize], i: usize) -> u16
    ensures { result ≡ word_at row.now i }
{
    (item_at(row, i) % 65536) as u16
}

// A number of a row as a byte.
pub fn octet(row: &[usize], i: usize) -> u8
    ensures { result ≡ byte_at row.now i }
{
    (item_at(row, i) % 256) as u8
}
