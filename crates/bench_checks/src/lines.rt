// A line of the cases: what is printed first, a bar, and a call by its first letter with its numbers. A line without a
// bar is a comment.
use crate::alone::{below, file, given, kin, label, order, path, query, table_case};
use crate::cars::{held, yet};
use crate::growth::{add, wipe};
use crate::outputs::{items, matching, stream};
use crate::show::say;
use crate::stores::{begin, check, deletion, entry, records, unchanged, value};
use case_lines::{ROW, bar_of, read_row};
use guards::item_at;
use prefixes::front;
use std::io;
use wrapping::sum;

const NEWLINE: u8 = b'\n';

// The calls that take no store.
fn call_alone(rt: &impl Print, letter: u8, row: &[usize]) -> io::Result<()> {
    match letter {
        b'b' => below(rt, row),
        b'f' => file(rt, row),
        b'g' => given(rt, row),
        b'k' => kin(rt, row),
        b'l' => label(rt, row),
        b'o' => order(rt, row),
        b'p' => path(rt, row),
        b'q' => query(rt, row),
        b't' => table_case(rt, row),
        _ => Ok(()),
    }
}

// The calls that read the store.
fn call_reading(
    rt: &impl Print,
    letter: u8,
    row: &[usize],
    words: &[u16],
    was: &[u16],
) -> io::Result<()> {
    match letter {
        b'c' => check(rt, row, words),
        b'h' => held(rt, row, words),
        b'i' => items(rt, row, words),
        b'm' => matching(rt, row, words),
        b'r' => records(rt, row, words),
        b's' => stream(rt, row, words),
        b'u' => unchanged(rt, row, words),
        b'y' => yet(rt, row, words, was),
        _ => Ok(()),
    }
}

// The calls that write to the store; a deletion leaves in others what the words were.
fn call_writing(
    rt: &impl Print,
    letter: u8,
    row: &[usize],
    words: &mut [u16],
    was: &mut [u16],
) -> io::Result<()> {
    match letter {
        b'a' => add(rt, row, words),
        b'd' => deletion(rt, row, words, was),
        b'e' => entry(rt, row, words),
        b'n' => begin(rt, row, words),
        b'v' => value(rt, row, words),
        b'w' => wipe(rt, row, words),
        _ => Ok(()),
    }
}

// A line, if it has a bar.
fn line(rt: &impl Print, line: &[u8], words: &mut [u16], was: &mut [u16]) -> io::Result<()> {
    let bar = bar_of(line);
    if bar == line.len() {
        return Ok(());
    }
    let mut row = [0usize; ROW];
    read_row(line, bar, &mut row);
    let letter = item_at(line, sum(bar, 1));
    say(rt, front(line, bar))?;
    call_alone(rt, letter, &row)?;
    call_reading(rt, letter, &row, words, was)?;
    call_writing(rt, letter, &row, words, was)?;
    say(rt, b"\n")
}

// Every line that ends, over one store.
pub fn lines(rt: &impl Print, text: &[u8], words: &mut [u16], was: &mut [u16]) -> io::Result<()> {
    for part in text.split_inclusive(|b| *b == NEWLINE) {
        if let Some(ended) = part.strip_suffix(&[NEWLINE]) {
            line(rt, ended, words, was)?;
        }
    }
    Ok(())
}
