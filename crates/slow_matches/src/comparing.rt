// One twig over its streams, by the slow matcher and by the library's.
use crate::label_lists::start;
use crate::slices::count_if;
use crate::slow::slow_matches;
use crate::tally::{
    AGREE, BRANCHING, EMPTY_STREAM, MANY_MATCHES, NO_MATCH, PAIRS, REFUSED, SIZE, UNFINISHED, say,
};
use crate::trees::ROOT;
use crate::twig_parts::{NODE_BYTES, wildcard_branches};
use guards::item_at;
use matching::match_twig;
use names::Table;
use prefixes::{front, front_mut};
use refusals::{Listing, Refusal, Verdict};
use std::io;
use suffixes::behind;
use wrapping::sum;

// The words of an output with room for 1,250 matches of eight nodes.
const OUT_WORDS: usize = 160000;

// What stands in an output before it is written.
const MARK: u16 = 60001;

// A twig with so many matches is counted as one that has many.
const MANY: usize = 1000;

// The kinds of room take turns. Their number and that of the sizes have no common factor.
const ROOMS: usize = 7;

// The words of an ample room behind what is written.
const MORE: usize = 40;

// The room for an answer of some words: one match too little, one word too little, exact, or ample.
fn room_for(need: usize, twig: &[u8], pair: usize) -> usize {
    match pair % ROOMS {
        0 => need.saturating_sub(start(twig.len() / NODE_BYTES)),
        1 => need.saturating_sub(1),
        2 => need,
        _ => sum(need, MORE),
    }
}

// The number of a refusal at place 0; 0 where the call passed.
fn refusal(v: Verdict) -> u8 {
    match v {
        Verdict::Passed => 0,
        Verdict::Refused(r) => { if r.place == 0 { r.number } else { 255 } }
    }
}

// An output has the mark from a place on.
fn is_marked(out: &[u16], from: usize) -> bool {
    behind(out, from).iter().all(|word| *word == MARK)
}

// What an answer should be: a refusal's number or 0, so many matches, and the mark behind so many words.
#[derive(Drop)]
struct Due {
    number: u8,
    matches: usize,
    words: usize,
}

// The answer due where so many matches take so many words, in a room that may be short.
fn answer_due(matches: usize, words: usize, short: bool) -> Due {
    if short {
        return Due {
            number: Refusal::SHORT_OUTPUT,
            matches: 0,
            words: 0,
        };
    }
    Due {
        number: 0,
        matches,
        words,
    }
}

// An answer is the one due, with so many matches shown in the output.
fn is_right(listing: Listing, d: Due, shown: usize, out: &[u16]) -> bool {
    let v = listing.verdict;
    (refusal(v) == d.number)
        & (listing.count == d.matches)
        & (shown == d.matches)
        & is_marked(out, d.words)
}

// A pair counted by its matches and the library's answer. One that differs is told by its number.
fn count_answer(
    rt: &impl Print,
    tally: &mut [usize],
    n: usize,
    short: bool,
    good: bool,
) -> io::Result<()> {
    count_if(tally, PAIRS, true);
    count_if(tally, AGREE, good);
    count_if(tally, NO_MATCH, n == 0);
    count_if(tally, MANY_MATCHES, MANY <= n);
    count_if(tally, REFUSED, short);
    if !good {
        say(rt, b"pair # differs\n", tally)?;
    }
    Ok(())
}

// A pair counted by its twig and its streams.
pub fn count_twig(tally: &mut [usize], twig: &[u8], empty: usize) {
    count_if(tally, sum(SIZE, twig.len() / NODE_BYTES), true);
    count_if(tally, BRANCHING, wildcard_branches(twig));
    count_if(tally, EMPTY_STREAM, empty != 0);
}

// A twig over its streams by the two matchers, compared and counted; whether the slow one came to an end.
pub fn compare(
    rt: &impl Print,
    table: &Table,
    twig: &[u8],
    store: &[u16],
    streams: &[u16],
    numbers: &[usize],
    leaves: usize,
    tally: &mut [usize],
) -> io::Result<bool> {
    let mut out = [MARK; OUT_WORDS];
    let walk = slow_matches(twig, store, streams, numbers, &out);
    if walk.next.is_some() {
        count_if(tally, UNFINISHED, true);
        return Ok(false);
    }
    let need = start(walk.labels);
    let room = room_for(need, twig, item_at(tally, PAIRS));
    let counts = front(numbers, leaves);
    let listing = match_twig(
        *table,
        ROOT,
        twig,
        counts,
        streams,
        front_mut(&mut out, room),
    );
    let again = slow_matches(twig, store, streams, numbers, &out);
    let short = (room < need) | (OUT_WORDS < need);
    let good = is_right(
        listing,
        answer_due(walk.found, need, short),
        again.shown,
        &out,
    );
    count_answer(rt, tally, walk.found, short, good)?;
    Ok(true)
}
