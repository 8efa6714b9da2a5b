// Pairs of a store and a twig: made up, compared and counted.
use crate::comparing::{compare, count_twig};
use crate::label_lists::start;
use crate::leaf_streams::{BUFFER_WORDS, NUMBERS, cut_streams};
use crate::random::roll;
use crate::tables::{TABLES, table};
use crate::trees::{STORE_WORDS, grow};
use crate::twig_making::{MADE_BYTES, make_twig};
use crate::twig_parts::{MAX_NODES, NODE_BYTES};
use names::Table;
use prefixes::front;
use records::Store;
use std::io;
use wrapping::sum;

// How many twigs are asked of each store: as many of each size.
const TWIGS: usize = 24;

// A store has fewer changes than this, or, one time in so many, as many as that.
const SMALL: usize = 90;

const LARGE_EVERY: usize = 15;

const LARGE: usize = 600;

// The parent of an entry is the deepest of up to so many records.
const DEEPEST: usize = 3;

// A twig of some nodes asked of a store.
fn ask(
    rt: &impl Print,
    table: &Table,
    store: &[u16],
    size: usize,
    state: &mut u64,
    tally: &mut [usize],
) -> io::Result<()> {
    let mut made = [0u8; MADE_BYTES];
    let mut buffer = [0u16; BUFFER_WORDS];
    let mut numbers = [0usize; NUMBERS];
    make_twig(store, &mut made, size, state);
    let twig = front(&made, size % 9 * NODE_BYTES);
    let s = cut_streams(table, store, twig, &mut buffer, &mut numbers, state);
    let streams = front(&buffer, start(s.labels));
    if compare(rt, table, twig, store, streams, &numbers, s.leaves, tally)? {
        count_twig(tally, twig, s.empty);
    }
    Ok(())
}

// Twigs of every size asked of store i, which is made up under one of the tables.
pub fn ask_store(
    rt: &impl Print,
    i: usize,
    state: &mut u64,
    tally: &mut [usize],
) -> io::Result<()> {
    let t = table(i % TABLES);
    let mut words = [0u16; STORE_WORDS];
    let changes = if i % LARGE_EVERY == 0 {
        LARGE
    } else {
        roll(state, SMALL)
    };
    let tries = sum(roll(state, DEEPEST), 1);
    let count = grow(&t, &mut words, changes, tries, state);
    let store = front(&words, count % STORE_WORDS * Store::RECORD_WORDS);
    for k in 0..TWIGS {
        ask(rt, &t, store, k % MAX_NODES + 1, state, tally)?;
    }
    Ok(())
}
