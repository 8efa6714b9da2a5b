// A line of the cases: what is printed first, a bar, and a change of the files by its first letter, with its numbers. A
// line without a bar is a comment.
use crate::files::{AREAS, NAMES, TWIG, begin, bytes, every, fill, many, words};
use crate::show::{NEWLINE, answer, title};
use case_lines::{ROW, bar_of, read_row};
use guards::item_at;
use prefixes::front;
use std::io;
use wrapping::sum;

// The files changed as a letter says.
fn change(letter: u8, row: &[usize], files: &mut [u8]) {
    match letter {
        b'b' => begin(files),
        b'e' => every(row, files),
        b'm' => many(row, files),
        b'n' => bytes(row, NAMES, files),
        b's' => words(row, files),
        b't' => bytes(row, TWIG, files),
        _ => (),
    }
}

// The change of a case, and what is printed for the files.
fn case(rt: &impl Print, letter: u8, row: &[usize], files: &[u8]) -> io::Result<()> {
    let mut changed = [0u8; AREAS];
    fill(&mut changed, 0, files);
    change(letter, row, &mut changed);
    let first = if letter == b'o' { item_at(row, 1) } else { 0 };
    answer(rt, &changed, first)
}

// A line: without text it changes the files for the lines behind it, with text for itself alone.
fn line(rt: &impl Print, line: &[u8], files: &mut [u8]) -> io::Result<()> {
    let bar = bar_of(line);
    if bar == line.len() {
        return Ok(());
    }
    let mut row = [0usize; ROW];
    read_row(line, bar, &mut row);
    let letter = item_at(line, sum(bar, 1));
    if bar == 0 {
        change(letter, &row, files);
        return Ok(());
    }
    title(rt, front(line, bar))?;
    if letter != 0 {
        case(rt, letter, &row, files)?;
    }
    Ok(())
}

// Every line of a text that ends, in turn.
pub fn lines(rt: &impl Print, text: &[u8], files: &mut [u8]) -> io::Result<()> {
    for part in text.split_inclusive(|b| *b == NEWLINE) {
        if let Some(ended) = part.strip_suffix(&[NEWLINE]) {
            line(rt, ended, files)?;
        }
    }
    Ok(())
}
