// The streams of a twig, cut from a store one after the other; some emptied, some thinned.
use crate::label_lists::start;
use crate::random::roll;
use crate::twig_parts::{MAX_NODES, NAME, NODE_BYTES, children, part};
use cutting::cut;
use guards::{item_at, put};
use labels::Label;
use names::Table;
use records::Store;
use suffixes::behind_mut;
use wrapping::sum;

// The words of the streams of eight leaves, each of 240 labels.
pub const BUFFER_WORDS: usize = 30720;

// The numbers of a twig's streams: how many labels each has, then how many there are before each node and in all.
pub const NUMBERS: usize = 17;

pub const BEFORE: usize = 8;

// One stream in so many is emptied, and one in so many thinned.
const EMPTIED: usize = 40;

const THINNED: usize = 8;

// Every other label of a list dropped, the second first; how many are left.
fn thin(words: &mut [u16], count: usize) -> usize {
    let half = count / 2;
    for w in 0..start(half) {
        let x = item_at(words, sum(w, w / Label::WORDS * Label::WORDS));
        put(words, w, x);
    }
    half
}

// The stream of a name, cut behind so many labels of a buffer; how many labels it has.
fn stream(
    table: &Table,
    store: &[u16],
    want: u8,
    buffer: &mut [u16],
    labels: usize,
    state: &mut u64,
) -> usize {
    let count = store.len() / Store::RECORD_WORDS;
    let out = behind_mut(buffer, start(labels));
    let listing = cut(*table, store, count, want, out);
    if roll(state, EMPTIED) == 0 {
        return 0;
    }
    if roll(state, THINNED) == 0 {
        return thin(out, listing.count);
    }
    listing.count
}

// What is cut: how many streams, how many of them empty, and how many labels in all.
#[derive(Drop)]
pub struct Streams {
    pub leaves: usize,
    pub empty: usize,
    pub labels: usize,
}

// What is cut with one stream more, which has n labels.
fn with_stream(s: Streams, n: usize) -> Streams {
    Streams {
        leaves: sum(s.leaves, 1),
        empty: sum(s.empty, (n == 0) as usize),
        labels: sum(s.labels, n),
    }
}

// The streams of a twig's leaves, one behind the other, and their numbers.
pub fn cut_streams(
    table: &Table,
    store: &[u16],
    twig: &[u8],
    buffer: &mut [u16],
    numbers: &mut [usize],
    state: &mut u64,
) -> Streams {
    let size = twig.len() / NODE_BYTES;
    let mut s = Streams {
        leaves: 0,
        empty: 0,
        labels: 0,
    };
    for q in 0..size {
        put(numbers, BEFORE + q % MAX_NODES, s.labels);
        if children(twig, q) == 0 {
            let want = part(twig, q, NAME);
            let n = stream(table, store, want, buffer, s.labels, state);
            put(numbers, s.leaves, n);
            s = with_stream(s, n);
        }
    }
    put(numbers, sum(BEFORE, size), s.labels);
    s
}
