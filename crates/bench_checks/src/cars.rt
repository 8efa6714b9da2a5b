// How many records of a car there are.
use crate::show::{say, say_number};
use crate::stores::{same, spot};
use guards::item_at;
use labels::Label;
use prefixes::front;
use records::Store;
use std::io;
use suffixes::behind;
use wrapping::half;

// The label of record r.
pub fn label_of(words: &[u16], r: usize) -> &[u16] {
    front(behind(words, spot(r, 0)), Label::WORDS)
}

// A label is that of a record.
fn stands(label: &[u16], words: &[u16], count: usize) -> bool {
    (0..count).any(|r| same(label, label_of(words, r)))
}

// The records with the payload of a car whose labels stand in another store of as many records.
fn standing(words: &[u16], count: usize, car: u16, others: &[u16]) -> usize {
    (0..count)
        .filter(|r| item_at(words, spot(*r, Store::PAYLOAD)) == car)
        .filter(|r| stands(label_of(words, *r), others, count))
        .count()
}

// The records below the root whose first component is x.
fn within(words: &[u16], count: usize, x: u16) -> usize {
    (0..count)
        .filter(|r| item_at(words, spot(*r, 0)) != 0)
        .filter(|r| item_at(words, spot(*r, 1)) == x)
        .count()
}

// held COUNT CAR X: the records with the payload of a car, and those with the label X or below it.
pub fn held(rt: &impl Print, row: &[usize], words: &[u16]) -> io::Result<()> {
    let count = item_at(row, 1);
    say_number(rt, standing(words, count, half(row, 2), words))?;
    say(rt, b", with its label or below: ")?;
    say_number(rt, within(words, count, half(row, 3)))
}

// yet COUNT CAR: the records of a car whose labels stood before the last deletion.
pub fn yet(rt: &impl Print, row: &[usize], words: &[u16], was: &[u16]) -> io::Result<()> {
    say_number(rt, standing(words, item_at(row, 1), half(row, 2), was))
}
