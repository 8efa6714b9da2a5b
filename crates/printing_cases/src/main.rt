// What the program that prints matches prints, over many small folders. The cases are the lines of the file `stdin`.
#![tactic(auto)]

mod files;
mod lines;
mod show;

use files::AREAS;
use lines::lines;
use prefixes::front;
use std::io;
use std::io::Read;

// The most bytes of the cases that are read.
const CASES: usize = 65536;

// The bytes of a reader, put at the front of a buffer: all of them, or as many as there is room for.
fn read_full(reader: &mut impl Read, bytes: &mut [u8]) -> io::Result<usize> {
    let mut n: usize = 0;
    while n < bytes.len() {
        let more = reader.read(&mut bytes[n..])?;
        if more == 0 {
            return Ok(n);
        }
        n += more;
    }
    Ok(n)
}

fn main(rt: HostRuntime) -> io::Result<()> {
    let mut text = [0u8; CASES];
    let n = read_full(&mut rt.reader(), &mut text)?;
    let mut files = [0u8; AREAS];
    lines(&rt, front(&text, n), &mut files)
}
