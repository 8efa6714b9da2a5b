// A line of a file of cases: where its bar stands, and its numbers.
#![tactic(auto)]

ghost use Rattle.std.specs.Prelude.{◌≡◌, false, drop};
ghost use Rattle.case_lines.specs.Lines.{bar_of, digit, place_of, with_byte, numbers_of};

use guards::{item_at, put};
use wrapping::sum;

// The places of a row: how many numbers a line has, and the numbers.
pub const ROW: usize = 40;

const BAR: u8 = b'|';

const ZERO: u8 = b'0';

const NINE: u8 = b'9';

// A number below this has room for one digit more.
const ROOM: usize = 1844674407370955161;

// Where the bar of a line stands; its end where there is none.
#[tactic(auto, using(crate::proofs::Read::bar_found, crate::proofs::Read::no_bar))]
pub fn bar_of(line: &[u8]) -> usize
    ensures { result ≡ bar_of line.now }
{
    line.iter().position(|b| *b == BAR).unwrap_or(line.len())
}

// A byte is a digit.
#[tactic(auto, unfolding(crate::specs::Lines::digit))]
fn is_digit(b: u8) -> bool
    ensures { result ≡ digit b }
{
    (ZERO..=NINE).contains(&b)
}

// The place of the number that a digit belongs to: the last number's inside one, and otherwise the next.
#[tactic(auto, unfolding(crate::specs::Lines::place_of))]
fn place_of(inside: bool, row: &[usize]) -> usize
    ensures { result ≡ place_of inside row.now }
{
    let last = item_at(row, 0);
    if inside { last } else { sum(last, 1) }
}

// A byte read into a row, from inside a number or not: whether it is a digit. A row tells how many numbers it has, and
// has them behind that.
#[tactic(auto, unfolding(crate::specs::Lines::with_byte, crate::specs::Lines::with_digit, crate::specs::Lines::behind_digits))]
fn read_byte(b: u8, inside: bool, row: &mut [usize]) -> bool
    ensures { (result ≡ digit b) × (row.new ≡ with_byte inside b row.old) }
{
    if !is_digit(b) {
        return false;
    }
    let n = place_of(inside, row);
    put(row, 0, n);
    let tens = item_at(row, n) % ROOM * 10;
    put(row, n, sum(tens, (b % 16) as usize));
    true
}

// The numbers of a line from a place on, read into a row.
pub fn read_row(line: &[u8], from: usize, row: &mut [usize])
    ensures { row.new ≡ numbers_of false (drop from line.now) row.old }
{
    let mut inside = false;
    for b in &line[from.min(line.len())..] {
        inside = read_byte(*b, inside, row);
    }
}
