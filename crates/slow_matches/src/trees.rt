// Stores made up by entries and deletions at random.
use crate::random::roll;
use clues::child_of;
use deletions::delete;
use entries::enter;
use guards::item_at;
use labels::Label;
use names::{FILLER, TABLE_SIZE, Table};
use new_stores::new_store;
use prefixes::{copy, front};
use records::Store;
use suffixes::behind;

// The words of a store of 240 records.
pub const STORE_WORDS: usize = 4800;

const STORE_RECORDS: usize = 240;

// One change in so many is a deletion, of the deepest of so many records.
const DELETION: usize = 20;

const DELETED: usize = 3;

// The root's name, and what a record's payload is.
pub const ROOT: u8 = 0;

const PAYLOAD: [u16; 2] = [0, 0];

// The label of record r.
pub fn record_label(words: &[u16], r: usize) -> &[u16] {
    front(
        behind(words, r % STORE_RECORDS * Store::RECORD_WORDS),
        Label::WORDS,
    )
}

// The name of record r.
pub fn record_name(words: &[u16], r: usize) -> usize {
    item_at(words, r % STORE_RECORDS * Store::RECORD_WORDS + Store::NAME) as usize
}

// The deepest of some records.
fn deepest(words: &[u16], count: usize, tries: usize, state: &mut u64) -> usize {
    let mut r = roll(state, count);
    for _ in 1..tries {
        let s = roll(state, count);
        if item_at(record_label(words, r), 0) < item_at(record_label(words, s), 0) {
            r = s;
        }
    }
    r
}

// A name below a name, picked by a number; the filler where there is none.
fn name_below(table: &Table, name: usize, pick: usize) -> u8 {
    child_of(table, name, (pick % TABLE_SIZE) as u16).unwrap_or(FILLER)
}

// An element deleted with all below it, or one entered below the deepest of some records; the count.
fn change(table: &Table, words: &mut [u16], count: usize, tries: usize, state: &mut u64) -> usize {
    let deletes = roll(state, DELETION) == 0;
    let r = deepest(words, count, if deletes { DELETED } else { tries }, state);
    let mut label = [0u16; 16];
    copy(&mut label, record_label(words, r));
    if deletes {
        let c = delete(*table, words, count, &label);
        return c.count;
    }
    let name = name_below(table, record_name(words, r), roll(state, TABLE_SIZE));
    let e = enter(*table, words, count, &label, name, PAYLOAD);
    e.count
}

// A store under a table after some changes; the count.
pub fn grow(
    table: &Table,
    words: &mut [u16],
    changes: usize,
    tries: usize,
    state: &mut u64,
) -> usize {
    let g = new_store(words, ROOT, PAYLOAD);
    let mut count = g.count;
    for _ in 0..changes {
        count = change(table, words, count, tries, state);
    }
    count
}
