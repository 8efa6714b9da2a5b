// How many pairs there are of each kind, counted and printed.
use guards::item_at;
use std::io;

// The kinds, and where each is counted. The twigs of a size are counted as many places behind one place.
pub const PAIRS: usize = 0;

pub const AGREE: usize = 1;

pub const SIZE: usize = 1;

pub const BRANCHING: usize = 10;

pub const EMPTY_STREAM: usize = 11;

pub const NO_MATCH: usize = 12;

pub const MANY_MATCHES: usize = 13;

pub const REFUSED: usize = 14;

pub const UNFINISHED: usize = 15;

// How many counts there are.
pub const KINDS: usize = 16;

// What stands in a text for the next count.
const COUNT: u8 = b'#';

// A text with the counts, from the first on.
pub fn say(rt: &impl Print, text: &[u8], tally: &[usize]) -> io::Result<()> {
    for (i, part) in text.split(|b| *b == COUNT).enumerate() {
        if 0 < i {
            rt.print(item_at(tally, i - 1))?;
        }
        rt.write_all(part)?;
    }
    Ok(())
}
