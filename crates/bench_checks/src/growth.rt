// Entries one after the other, and vehicles deleted one after the other.
use crate::cars::label_of;
use crate::row::table;
use crate::show::{dotted, say, say_number};
use crate::stores::count_of;
use bench_names::bench_table;
use case_lines::ROW;
use deletions::delete;
use entries::enter;
use guards::item_at;
use prefixes::{copy, front, front_mut};
use std::io;
use wrapping::{half, octet, sum};

// What is shown of the entries: the last label, the first and the last, or all of them.
const LAST: usize = 1;

const FIRST_AND_LAST: usize = 2;

const ALL: usize = 3;

// The number of a parent that stands for the last record.
const LAST_RECORD: usize = 99;

// The first place of a row with a parent.
const PAIRS: usize = 8;

// Where the parent of an entry stands: the root, the last record, or one of the records from the start on, which are
// counted from 1.
fn parent_at(p: usize, start: usize, count: usize) -> usize {
    if p == 0 {
        return 0;
    }
    let from = if p == LAST_RECORD {
        count
    } else {
        sum(start, p)
    };
    from.wrapping_sub(1)
}

// The mark of an entry: the row's, one more with each entry if the step is not 0.
fn mark_of(row: &[usize], entered: usize) -> u16 {
    if item_at(row, 7) == 0 {
        return half(row, 6);
    }
    half(row, 6).wrapping_add((entered % 65536) as u16)
}

// An entry of a parent and a name, if the row has them; the count after it. Its payload is its mark and the name.
fn add_one(
    rt: &impl Print,
    row: &[usize],
    at: usize,
    words: &mut [u16],
    start: usize,
    count: usize,
) -> io::Result<usize> {
    if item_at(row, 0) <= at {
        return Ok(count);
    }
    let mut parent = [0u16; 16];
    let up = parent_at(item_at(row, at), start, count);
    copy(&mut parent, label_of(words, up));
    let name = octet(row, sum(at, 1));
    let mark = mark_of(row, count.wrapping_sub(start));
    let e = enter(
        table(item_at(row, 2)),
        front_mut(words, item_at(row, 3)),
        count,
        &parent,
        name,
        [mark, name as u16],
    );
    let label = e.label;
    if item_at(row, 1) == ALL {
        say(rt, b" ")?;
        dotted(rt, &label)?;
    }
    Ok(e.count)
}

// The entries of a row; the count after them.
fn add_all(rt: &impl Print, row: &[usize], words: &mut [u16], start: usize) -> io::Result<usize> {
    let mut count = start;
    for at in (PAIRS..ROW).step_by(2) {
        count = add_one(rt, row, at, words, start, count)?;
    }
    Ok(count)
}

// What is shown behind the entries.
fn summary(
    rt: &impl Print,
    shown: usize,
    words: &[u16],
    first: usize,
    last: usize,
    count: usize,
) -> io::Result<()> {
    if shown == ALL {
        return Ok(());
    }
    if shown == FIRST_AND_LAST {
        dotted(rt, label_of(words, first))?;
        say(rt, b" to ")?;
    }
    if LAST <= shown {
        dotted(rt, label_of(words, last))?;
        say(rt, b", ")?;
    }
    say(rt, b"count ")?;
    say_number(rt, count)
}

// add SHOWN TABLE WORDS COUNT TIMES MARK STEP PARENT NAME..: the entries of a row, some times.
pub fn add(rt: &impl Print, row: &[usize], words: &mut [u16]) -> io::Result<()> {
    let start = item_at(row, 4);
    let mut last = start;
    let mut count = start;
    for _ in 0..item_at(row, 5) {
        last = count;
        count = add_all(rt, row, words, count)?;
    }
    summary(rt, item_at(row, 1), words, start, last, count)
}

// wipe WORDS COUNT VEHICLES OLD: vehicles deleted from 0 on, and what is left in the words.
pub fn wipe(rt: &impl Print, row: &[usize], words: &mut [u16]) -> io::Result<()> {
    let len = item_at(row, 1);
    let mut count = item_at(row, 2);
    for v in 0..half(row, 3) {
        let label = [1, v, 0, 0, 0, 0, 0, 0, 0, 0, 0, 0, 0, 0, 0, 0];
        let c = delete(bench_table(), front_mut(words, len), count, &label);
        count = c.count;
    }
    say(rt, b"count ")?;
    say_number(rt, count)?;
    say(rt, b", words that are 0: ")?;
    say_number(rt, count_of(front(words, len), 0))?;
    say(rt, b", words as before the first use: ")?;
    say_number(rt, count_of(front(words, len), half(row, 4)))
}
