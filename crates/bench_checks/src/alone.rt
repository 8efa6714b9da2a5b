// Calls that take no store: numbers, files, tables, labels and twigs.
use crate::row::{put_words, table};
use crate::show::{refusal, say, say_number, verdict};
use bench_names::bench_table;
use clues::{clue_len, place_of};
use decoding::decode;
use guards::{item_at, put};
use kinship::{follows, kinship};
use label_checks::check_label;
use name_files::{check_names, read_names};
use numbers::next_number;
use prefixes::front;
use refusals::Refusal;
use std::io;
use table_checks::check_table;
use twig_checks::check_twig;
use wrapping::{half, octet};

// The words of a label in a row, and more than that.
const MANY_WORDS: usize = 20000;

// The bytes of a file in a row, and more than that.
const MANY_BYTES: usize = 20000;

// Shows the number that a child of place k of n gets, and answers the next number after it.
fn give(rt: &impl Print, n: usize, k: usize, next: u16) -> io::Result<u16> {
    say(rt, b" ")?;
    match next_number(n, k, next) {
        Some(x) => {
            say_number(rt, x as usize)?;
            Ok(x.wrapping_add(1))
        }
        None => {
            say(rt, b"refused ")?;
            say_number(rt, Refusal::NO_NUMBER as usize)?;
            Ok(next)
        }
    }
}

// The number of a child name below a name of the bench.
fn give_below(rt: &impl Print, parent: usize, child: u8, next: u16) -> io::Result<u16> {
    let t = bench_table();
    match place_of(&t, parent, child) {
        Some(k) => give(rt, clue_len(&t, parent), k, next),
        None => {
            say(rt, b" no place")?;
            Ok(next)
        }
    }
}

// below PARENT NAME..: the numbers of children, one after the other.
pub fn below(rt: &impl Print, row: &[usize]) -> io::Result<()> {
    let mut next: u16 = 0;
    for i in 2..=item_at(row, 0) {
        next = give_below(rt, item_at(row, 1), octet(row, i), next)?;
    }
    Ok(())
}

// give N K F EARLIER: the number of a child of place K of N, after some earlier ones from the next number F on.
pub fn given(rt: &impl Print, row: &[usize]) -> io::Result<()> {
    let mut next = half(row, 3);
    for _ in 0..item_at(row, 4) {
        if let Some(x) = next_number(item_at(row, 1), item_at(row, 2), next) {
            next = x.wrapping_add(1);
        }
    }
    give(rt, item_at(row, 1), item_at(row, 2), next)?;
    Ok(())
}

// file LENGTH FILLER BYTE..: the check of a child-name file, and how long name 0's clue is in the table read from it.
pub fn file(rt: &impl Print, row: &[usize]) -> io::Result<()> {
    let filling = octet(row, 2);
    let mut bytes = [filling; MANY_BYTES];
    for i in 3..=item_at(row, 0) {
        put(&mut bytes, i - 3, octet(row, i));
    }
    let file = front(&bytes, item_at(row, 1));
    verdict(rt, check_names(file))?;
    say(rt, b", clue of 0: ")?;
    say_number(rt, clue_len(&read_names(file), 0))
}

// table TABLE ROW PLACE X: the check of a table with one number changed.
pub fn table_case(rt: &impl Print, row: &[usize]) -> io::Result<()> {
    let mut t = table(item_at(row, 1));
    if let Some(names) = t.get_mut(item_at(row, 2)) {
        put(names, item_at(row, 3), octet(row, 4));
    }
    verdict(rt, check_table(t))
}

// label LENGTH WORD..: the check of a label.
pub fn label(rt: &impl Print, row: &[usize]) -> io::Result<()> {
    let mut words = [0u16; MANY_WORDS];
    put_words(row, 2, 17, &mut words);
    verdict(rt, check_label(front(&words, item_at(row, 1))))
}

// The sixteen names of a path, shown in turn.
fn say_names(rt: &impl Print, names: &[u8]) -> io::Result<()> {
    for name in names {
        say(rt, b" ")?;
        say_number(rt, *name as usize)?;
    }
    Ok(())
}

// path TABLE ROOT WORD..: the path that a label tells.
pub fn path(rt: &impl Print, row: &[usize]) -> io::Result<()> {
    let mut words = [0u16; 16];
    put_words(row, 3, 16, &mut words);
    let d = decode(table(item_at(row, 1)), octet(row, 2), &words);
    let v = d.verdict;
    let names = d.names;
    verdict(rt, v)?;
    say(rt, b",")?;
    say_names(rt, &names)
}

// kin LENGTH WORD WORD WORD LENGTH WORD WORD WORD: kinship of a first label to a second.
pub fn kin(rt: &impl Print, row: &[usize]) -> io::Result<()> {
    let mut a = [0u16; 16];
    let mut b = [0u16; 16];
    put_words(row, 2, 3, &mut a);
    put_words(row, 6, 3, &mut b);
    match kinship(front(&a, item_at(row, 1)), front(&b, item_at(row, 5))) {
        Ok(relation) => say_number(rt, usize::from(relation.number())),
        Err(r) => refusal(rt, r),
    }
}

// Yes or no.
fn answer(rt: &impl Print, yes: bool) -> io::Result<()> {
    if yes { say(rt, b"yes") } else { say(rt, b"no") }
}

// order LENGTH WORD WORD WORD LENGTH WORD WORD WORD: whether a first label follows a second.
pub fn order(rt: &impl Print, row: &[usize]) -> io::Result<()> {
    let mut a = [0u16; 16];
    let mut b = [0u16; 16];
    put_words(row, 2, 3, &mut a);
    put_words(row, 6, 3, &mut b);
    match follows(front(&a, item_at(row, 1)), front(&b, item_at(row, 5))) {
        Ok(yes) => answer(rt, yes),
        Err(r) => refusal(rt, r),
    }
}

// query LENGTH: the check of a twig whose nodes all ask for name 0 as a child of the first.
pub fn query(rt: &impl Print, row: &[usize]) -> io::Result<()> {
    let mut twig = [0u8; 64];
    twig[0] = 255;
    verdict(rt, check_twig(front(&twig, item_at(row, 1))))
}
