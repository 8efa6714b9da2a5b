// Calls on the store, each shown with all that it answers and whether the words are as they were.
// A store stands in the first words of a slice; the others are watched as well.
use crate::row::{put_words, table};
use crate::show::{dotted, say, say_number, verdict};
use deletions::delete;
use entries::enter;
use guards::{item_at, put};
use new_stores::new_store;
use prefixes::{copy, front, front_mut};
use records::Store;
use refusals::Verdict;
use std::io;
use store_checks::check_store;
use suffixes::behind;
use wrapping::{half, octet, sum};

// The words of 4,098 records.
pub const LARGEST: usize = 81960;

// The payload of a record that need not be told from others.
pub const PAYLOAD: [u16; 2] = [71, 72];

// The most words that a check of a store changes.
const CHANGES: usize = 6;

// Where word w of record r stands.
pub fn spot(r: usize, w: usize) -> usize {
    if Store::MAX_RECORDS < r {
        return LARGEST;
    }
    sum(r * Store::RECORD_WORDS, w)
}

// How many words are x.
pub fn count_of(words: &[u16], x: u16) -> usize {
    words.iter().filter(|word| **word == x).count()
}

// Words are the same as the front of others.
pub fn same(words: &[u16], others: &[u16]) -> bool {
    words
        .iter()
        .enumerate()
        .all(|(i, word)| *word == item_at(others, i))
}

// What a call answered, its count, and whether words are as they were.
pub fn outcome(
    rt: &impl Print,
    v: Verdict,
    count: usize,
    words: &[u16],
    was: &[u16],
) -> io::Result<()> {
    verdict(rt, v)?;
    say(rt, b", count ")?;
    say_number(rt, count)?;
    if same(words, was) {
        say(rt, b", untouched")
    } else {
        say(rt, b", changed")
    }
}

// new FILLER WORDS ROOT: a new store, over words that are all the same.
pub fn begin(rt: &impl Print, row: &[usize], words: &mut [u16]) -> io::Result<()> {
    let filling = half(row, 1);
    let was = [filling; LARGEST];
    copy(words, &was);
    let c = new_store(front_mut(words, item_at(row, 2)), octet(row, 3), PAYLOAD);
    let v = c.verdict;
    outcome(rt, v, c.count, words, &was)
}

// A label answered by an entry, and how many of its words are 0.
fn say_label(rt: &impl Print, label: [u16; 16]) -> io::Result<()> {
    say(rt, b"label ")?;
    dotted(rt, &label)?;
    say(rt, b" with ")?;
    say_number(rt, count_of(&label, 0))?;
    say(rt, b" zeros, ")
}

// enter TABLE WORDS COUNT NAME LENGTH WORD..: an entry below a label.
pub fn entry(rt: &impl Print, row: &[usize], words: &mut [u16]) -> io::Result<()> {
    let mut was = [0u16; LARGEST];
    copy(&mut was, words);
    let mut parent = [0u16; 17];
    put_words(row, 6, 16, &mut parent);
    let e = enter(
        table(item_at(row, 1)),
        front_mut(words, item_at(row, 2)),
        item_at(row, 3),
        front(&parent, item_at(row, 5)),
        octet(row, 4),
        PAYLOAD,
    );
    let v = e.verdict;
    let label = e.label;
    say_label(rt, label)?;
    outcome(rt, v, e.count, words, &was)
}

// delete TABLE WORDS COUNT LENGTH WORD..: a deletion; others keep what the words were.
pub fn deletion(
    rt: &impl Print,
    row: &[usize],
    words: &mut [u16],
    was: &mut [u16],
) -> io::Result<()> {
    copy(was, words);
    let mut label = [0u16; 17];
    put_words(row, 5, 16, &mut label);
    let c = delete(
        table(item_at(row, 1)),
        front_mut(words, item_at(row, 2)),
        item_at(row, 3),
        front(&label, item_at(row, 4)),
    );
    let v = c.verdict;
    outcome(rt, v, c.count, words, was)
}

// A word of a record changed, if the row names it.
fn change(row: &[usize], at: usize, words: &mut [u16]) {
    if at < item_at(row, 0) {
        let r = item_at(row, at);
        let w = item_at(row, sum(at, 1));
        put(words, spot(r, w), half(row, sum(at, 2)));
    }
}

// check TABLE WORDS COUNT RECORD WORD X..: the check of the store with some words changed.
pub fn check(rt: &impl Print, row: &[usize], words: &[u16]) -> io::Result<()> {
    let mut changed = [0u16; LARGEST];
    copy(&mut changed, words);
    for i in 0..CHANGES {
        change(row, 4 + i * 3, &mut changed);
    }
    let store = front(&changed, item_at(row, 2));
    verdict(
        rt,
        check_store(table(item_at(row, 1)), store, item_at(row, 3)),
    )
}

// value RECORD WORD X: a word of a record, first put there if the row has it.
pub fn value(rt: &impl Print, row: &[usize], words: &mut [u16]) -> io::Result<()> {
    let at = spot(item_at(row, 1), item_at(row, 2));
    let was = item_at(words, at);
    let x = if item_at(row, 0) == 3 {
        half(row, 3)
    } else {
        was
    };
    put(words, at, x);
    say_number(rt, item_at(words, at) as usize)
}

// unchanged WORDS X: how many words are still X.
pub fn unchanged(rt: &impl Print, row: &[usize], words: &[u16]) -> io::Result<()> {
    say_number(rt, count_of(front(words, item_at(row, 1)), half(row, 2)))
}

// A word of a record behind what is said of it.
fn say_word(rt: &impl Print, text: &[u8], words: &[u16], r: usize, w: usize) -> io::Result<()> {
    say(rt, text)?;
    say_number(rt, item_at(words, spot(r, w)) as usize)
}

// A record, on a line of its own.
fn record(rt: &impl Print, words: &[u16], r: usize) -> io::Result<()> {
    if 0 < r {
        say(rt, b"\n")?;
    }
    dotted(rt, behind(words, spot(r, 0)))?;
    say_word(rt, b": name ", words, r, Store::NAME)?;
    say_word(rt, b" f ", words, r, Store::NEXT)?;
    say_word(rt, b" payload ", words, r, Store::PAYLOAD)?;
    say_word(rt, b" ", words, r, Store::PAYLOAD + 1)
}

// records COUNT: the records in use.
pub fn records(rt: &impl Print, row: &[usize], words: &[u16]) -> io::Result<()> {
    for r in 0..item_at(row, 1) {
        record(rt, words, r)?;
    }
    Ok(())
}
