// The paper's checks of names, labels, stores and matching, run and printed. The cases are the lines of the file
// `stdin`.
#![tactic(auto)]

mod alone;
mod cars;
mod growth;
mod lines;
mod outputs;
mod row;
mod show;
mod stores;

use lines::lines;
use prefixes::front;
use std::io;
use std::io::Read;
use stores::LARGEST;

// The most bytes of the cases that are read.
const CASES: usize = 65536;

// The bytes of a reader, put at the front of a buffer: all of them, or as many as there is room for.
fn read_full(reader: &mut impl Read, bytes: &mut [u8]) -> io::Result<usize> {
    let mut n: usize = 0;
    while n < bytes.len() {
        let more = reader.read(&mut bytes[n..])?;
        if more == 0 {
            return Ok(n);
        }
        n += more;
    }
    Ok(n)
}

fn main(rt: HostRuntime) -> io::Result<()> {
    let mut text = [0u8; CASES];
    let n = read_full(&mut rt.reader(), &mut text)?;
    let mut words = [0u16; LARGEST];
    let mut was = [0u16; LARGEST];
    lines(&rt, front(&text, n), &mut words, &mut was)
}
