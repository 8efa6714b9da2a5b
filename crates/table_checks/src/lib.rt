// The check of a table: each row holds names, each once, and then the filler alone.
#![tactic(auto)]

ghost use Rattle.std.specs.Prelude.{◌≡◌, ◌&&◌, not};
ghost use Rattle.basics.specs.Basics.{all};
ghost use Rattle.naming.specs.Names as spec;
ghost use Rattle.refusals.specs.Answers.{verdict_of};
ghost use Rattle.table_checks.specs.Rows.{is_filler};

use names::{FILLER, MAX_NAME, Table, row_len};
use refusals::{Refusal, Verdict, refuse};

// Every number is a name, and none stands twice.
#[tactic(auto, using(crate::proofs::Marks::mark_from, crate::proofs::Marks::mark_high, crate::proofs::Marks::mark_again, crate::proofs::Marks::mark_on, crate::proofs::Marks::mark_end))]
fn names_once(names: &[u8]) -> bool
    ensures { result ≡ (all spec.is_name names.now && not (spec.twice names.now)) }
{
    let mut seen = [false; 64];
    for name in names {
        if MAX_NAME < *name {
            return false;
        }
        let c = *name as usize;
        if seen[c] {
            return false;
        }
        seen[c] = true;
    }
    true
}

// Every number is the filler: the least is, and no byte is greater.
// The loop has no exit, so it may take many bytes a step.
#[tactic(auto, using(crate::proofs::Marks::least_less, crate::proofs::Marks::least_same, crate::proofs::Marks::least_end))]
fn all_filler(rest: &[u8]) -> bool
    ensures { result ≡ all is_filler rest.now }
{
    let mut least: u8 = FILLER;
    for byte in rest {
        if *byte < least {
            least = *byte;
        }
    }
    least == FILLER
}

// A row holds names, each once, and then the filler alone. Asked of a whole row first,
// the filler would be a loop of a known length, which the compiler may unroll byte by byte.
#[tactic(auto, using(crate::proofs::Marks::cut_long, crate::proofs::Marks::cut_in, crate::proofs::Marks::cut_rest, crate::proofs::Marks::cut_not))]
fn row_good(row: &[u8]) -> bool
    ensures { result ≡ spec.good_row row.now }
{
    let n = row_len(row);
    names_once(&row[..n]) && all_filler(&row[n..])
}

// Every row of a table is good.
#[tactic(auto, using(basics::proofs::Scans::all_on, basics::proofs::Scans::all_stop, basics::proofs::Scans::all_end))]
fn rows_good(table: &Table) -> bool
    ensures { result ≡ all spec.good_row table.now }
{
    for p in 0..table.len() {
        if !row_good(&table[p]) {
            return false;
        }
    }
    true
}

// The check of a lent table: 22.
#[tactic(auto, using(crate::proofs::Marks::table_good, crate::proofs::Marks::table_bad))]
pub fn table_verdict(table: &Table) -> Verdict
    ensures { result ≡ verdict_of (spec.table_check table.now) }
{
    if rows_good(table) {
        Verdict::Passed
    } else {
        refuse(Refusal::BAD_TABLE, 0)
    }
}

// The check of a table: 22.
pub fn check_table(table: Table) -> Verdict
    ensures { result ≡ verdict_of (spec.table_check table) }
{
    table_verdict(&table)
}
