// Streams cut from the store, and twigs matched over them.
use crate::row::table;
use crate::show::{dotted, say, say_number};
use crate::stores::{count_of, outcome};
use cutting::cut;
use guards::{item_at, put};
use labels::Label;
use matching::match_twig;
use prefixes::{front, front_mut};
use refusals::Listing;
use std::io;
use suffixes::{behind, behind_mut};
use wrapping::{half, octet};

// The words of an output with room for a label more than nine, and of one with a word more than four matches.
const LABEL_ROOM: usize = 160;

const MATCH_ROOM: usize = 193;

// What stands in an output before it is written.
const OLD: u16 = 9;

// A vehicle with an axle and a curve somewhere below it.
const TWIG: [u8; 12] = [255, 1, 1, 0, 0, 1, 3, 0, 0, 1, 4, 0];

const AXLE: u8 = 3;

const CURVE: u8 = 4;

// The small store's words and its records.
const SMALL_WORDS: usize = 180;

const SMALL_COUNT: usize = 9;

// The words of two labels, and of four.
const TWO_LABELS: usize = 32;

const FOUR_LABELS: usize = 64;

// The stream that a row asks for, written to an output.
fn cut_by(row: &[usize], words: &[u16], out: &mut [u16]) -> Listing {
    cut(
        table(item_at(row, 1)),
        front(words, item_at(row, 2)),
        item_at(row, 3),
        octet(row, 4),
        front_mut(out, item_at(row, 5)),
    )
}

// stream TABLE WORDS COUNT NAME ROOM: cutting.
pub fn stream(rt: &impl Print, row: &[usize], words: &[u16]) -> io::Result<()> {
    let was = [OLD; LABEL_ROOM];
    let mut out = [OLD; LABEL_ROOM];
    let l = cut_by(row, words, &mut out);
    let v = l.verdict;
    outcome(rt, v, l.count, &out, &was)
}

// items TABLE WORDS COUNT NAME ROOM: the labels that cutting wrote, and how many words of the output are as they were.
pub fn items(rt: &impl Print, row: &[usize], words: &[u16]) -> io::Result<()> {
    let mut out = [OLD; LABEL_ROOM];
    let l = cut_by(row, words, &mut out);
    for i in 0..l.count {
        say(rt, b" ")?;
        dotted(rt, behind(&out, i % LABEL_ROOM * Label::WORDS))?;
    }
    say(rt, b", words as they were: ")?;
    say_number(rt, count_of(&out, OLD))
}

// The twig with the byte changed that a row tells.
fn twig(row: &[usize]) -> [u8; 12] {
    let mut t = TWIG;
    put(&mut t, item_at(row, 4), octet(row, 5));
    t
}

// The axles and the curves of the small store, two of each, with the word changed that a row tells.
fn streams(row: &[usize], words: &[u16]) -> [u16; FOUR_LABELS] {
    let mut s = [0u16; FOUR_LABELS];
    let t = table(0);
    let store = front(words, SMALL_WORDS);
    cut(t, store, SMALL_COUNT, AXLE, &mut s);
    cut(t, store, SMALL_COUNT, CURVE, behind_mut(&mut s, TWO_LABELS));
    put(&mut s, item_at(row, 6), half(row, 7));
    s
}

// The matches that a row asks for, written to an output.
fn match_by(row: &[usize], words: &[u16], out: &mut [u16]) -> Listing {
    let counts = [item_at(row, 9), item_at(row, 10), item_at(row, 11)];
    match_twig(
        table(item_at(row, 1)),
        octet(row, 2),
        front(&twig(row), item_at(row, 3)),
        front(&counts, item_at(row, 0).wrapping_sub(8)),
        &streams(row, words),
        front_mut(out, item_at(row, 8)),
    )
}

// match TABLE ROOT LENGTH AT BYTE AT WORD ROOM COUNT..: matching with one byte of the twig and one word of the streams
// changed.
pub fn matching(rt: &impl Print, row: &[usize], words: &[u16]) -> io::Result<()> {
    let was = [OLD; MATCH_ROOM];
    let mut out = [OLD; MATCH_ROOM];
    let l = match_by(row, words, &mut out);
    let v = l.verdict;
    outcome(rt, v, l.count, &out, &was)
}
