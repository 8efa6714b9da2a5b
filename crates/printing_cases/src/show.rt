// What the cases print.
use crate::files::{NAMES, STORE, TWIG, file};
use prefixes::front;
use printing::{TEXT_BYTES, print_matches};
use std::io;

// The byte that ends a line.
pub const NEWLINE: u8 = b'\n';

const SPACE: u8 = b' ';

// Text as it is.
fn say(rt: &impl Print, text: &[u8]) -> io::Result<()> {
    rt.write_all(text)
}

// A number in decimal.
fn number(rt: &impl Print, n: usize) -> io::Result<()> {
    rt.print(n)
}

// The text of a line; what follows stands behind a space at its end, and on a line of its own otherwise.
pub fn title(rt: &impl Print, text: &[u8]) -> io::Result<()> {
    say(rt, text)?;
    if !text.ends_with(&[SPACE]) {
        say(rt, b"\n")?;
    }
    Ok(())
}

// A text; only its size, its first bytes and its last line where some first bytes are asked for.
fn show(rt: &impl Print, text: &[u8], first: usize) -> io::Result<()> {
    if first == 0 {
        return say(rt, text);
    }
    let lines = text.split_inclusive(|b| *b == NEWLINE).count();
    let last = text.split_inclusive(|b| *b == NEWLINE).last();
    number(rt, text.len())?;
    say(rt, b" bytes in ")?;
    number(rt, lines.max(1))?;
    say(rt, b" lines\n")?;
    say(rt, front(text, first))?;
    say(rt, b"..\n")?;
    say(rt, last.unwrap_or(text))
}

// What is printed for the three files.
pub fn answer(rt: &impl Print, files: &[u8], first: usize) -> io::Result<()> {
    let mut text = [0u8; TEXT_BYTES];
    let n = print_matches(
        file(files, NAMES),
        file(files, STORE),
        file(files, TWIG),
        &mut text,
    );
    show(rt, front(&text, n), first)
}
