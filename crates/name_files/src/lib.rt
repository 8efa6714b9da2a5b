// Child-name files, checked and read into tables.
#![tactic(auto)]

ghost use Rattle.std.specs.Prelude.{◌≡◌};
ghost use Rattle.naming.specs.Names.{pairs, file_check, table_of, empty_table, read_names};
ghost use Rattle.refusals.specs.Answers.{verdict_of};
ghost use Rattle.refusals.specs.declared.Verdict.TheVariants as verdict;

use clues::{clue_len, place_of};
use names::{FILLER, MAX_NAME, Table};
use refusals::{Refusal, Verdict, refuse};

// How many bytes a child-name file has at most.
pub const MAX_FILE: usize = 8192;

// Puts the pairs of a child-name file into a table of empty clues: refused by 1 to 3, or all pairs stand in the table.
#[tactic(auto, using(crate::proofs::Answers::read_odd, crate::proofs::Answers::read_long, crate::proofs::Reading::read_start, crate::proofs::Answers::high_parent, crate::proofs::Answers::high_child, crate::proofs::Answers::again, crate::proofs::Answers::room_left, crate::proofs::Answers::read_whole, crate::proofs::Answers::read_table))]
fn put_pairs(file: &[u8], table: &mut Table) -> Verdict
    requires { table.old ≡ empty_table }
    ensures checked { result ≡ verdict_of (file_check file.now) }
    ensures filled { result ≡ verdict.Passed → table.new ≡ table_of (pairs file.now) }
{
    if file.len() % 2 != 0 {
        return refuse(Refusal::FILE_LENGTH, 0);
    }
    if MAX_FILE < file.len() {
        return refuse(Refusal::FILE_LENGTH, 0);
    }
    for i in 0..file.len() / 2 {
        let parent = file[i * 2];
        let child = file[i * 2 + 1];
        if MAX_NAME < parent {
            return refuse(Refusal::NAME_TOO_HIGH, i);
        }
        if MAX_NAME < child {
            return refuse(Refusal::NAME_TOO_HIGH, i);
        }
        let p = parent as usize;
        let None = place_of(table, p, child) else {
            return refuse(Refusal::PAIR_AGAIN, i);
        };
        let k = clue_len(table, p);
        table[p][k] = child;
    }
    Verdict::Passed
}

// The check of a child-name file: 1 to 3.
#[tactic(auto, using(crate::proofs::Answers::empty_rows))]
pub fn check_names(file: &[u8]) -> Verdict
    ensures { result ≡ verdict_of (file_check file.now) }
{
    let mut seen: Table = [[FILLER; 64]; 64];
    put_pairs(file, &mut seen)
}

// The table that a child-name file gives; a refused file gives a table of empty clues.
#[tactic(auto, using(crate::proofs::Answers::empty_rows, crate::proofs::Answers::table_refused, crate::proofs::Answers::table_read_lem))]
pub fn read_names(file: &[u8]) -> Table
    ensures { result ≡ (read_names file.now).table }
{
    let mut table: Table = [[FILLER; 64]; 64];
    match put_pairs(file, &mut table) {
        Verdict::Passed => table,
        Verdict::Refused(_) => [[FILLER; 64]; 64],
    }
}
