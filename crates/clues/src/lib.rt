// The clue of a name, its row in the table: how many names it has,
// the place of a child in it, and where a component leads.
#![tactic(auto)]

ghost use Rattle.std.specs.Prelude.{◌≡◌, length};
ghost use Rattle.naming.specs.Names as spec;
ghost use Rattle.bridges.specs.Options.{optional};

use names::{FILLER, Table, row_len};

// A name's row, copied; no names for a number that is no name.
#[tactic(auto, using(crate::proofs::Rows::clue_none))]
fn row_of(table: &Table, parent: usize) -> [u8; 64]
    ensures { spec.names_of result ≡ spec.clues_of table.now parent }
{
    match table.get(parent) {
        Some(row) => *row,
        None => [FILLER; 64],
    }
}

// How many names the clue of a name has.
pub fn clue_len(table: &Table, parent: usize) -> usize
    ensures { result ≡ length (spec.clues_of table.now parent) }
{
    let row = row_of(table, parent);
    row_len(&row)
}

// The place of a name in a row.
#[tactic(auto, using(crate::proofs::Rows::shift_from, crate::proofs::Rows::search_end, crate::proofs::Rows::search_stop, crate::proofs::Rows::search_here, crate::proofs::Rows::search_on))]
fn row_place(row: &[u8], child: u8) -> Option<usize>
    ensures { result ≡ optional (spec.place_in child (spec.names_of row.now)) }
{
    for (i, name) in row.iter().enumerate() {
        if *name == FILLER {
            return None;
        }
        if *name == child {
            return Some(i);
        }
    }
    None
}

// The place of a child name in the clue of a name.
pub fn place_of(table: &Table, parent: usize, child: u8) -> Option<usize>
    ensures { result ≡ optional (spec.place_in child (spec.clues_of table.now parent)) }
{
    let row = row_of(table, parent);
    row_place(&row, child)
}

// The name that a component leads to in a row of n names.
#[tactic(auto, using(crate::proofs::Rows::pick_none, crate::proofs::Rows::pick_in, crate::proofs::Rows::pick_some))]
fn row_child(row: &[u8], n: usize, component: u16) -> Option<u8>
    requires { n ≡ length (spec.names_of row.now) }
    ensures { result ≡ optional (spec.led (spec.names_of row.now) component) }
{
    if n == 0 {
        return None;
    }
    let k = (component as usize) % n;
    Some(row[k])
}

// The name that a component leads to from a name.
pub fn child_of(table: &Table, parent: usize, component: u16) -> Option<u8>
    ensures { result ≡ optional (spec.led (spec.clues_of table.now parent) component) }
{
    child_among(table, parent, clue_len(table, parent), component)
}

// The name that a component leads to from a name whose clue has n names.
pub fn child_among(table: &Table, parent: usize, n: usize, component: u16) -> Option<u8>
    requires { n ≡ length (spec.clues_of table.now parent) }
    ensures { result ≡ optional (spec.led (spec.clues_of table.now parent) component) }
{
    let row = row_of(table, parent);
    row_child(&row, n, component)
}
