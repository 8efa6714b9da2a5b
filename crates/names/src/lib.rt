// Names, and the table of what may stand below them: its rows, and how many names each has.
#![tactic(auto)]

ghost use Rattle.std.specs.Prelude.{◌≡◌, length};
ghost use Rattle.naming.specs.Names as spec;

// The highest name.
pub const MAX_NAME: u8 = 63;
// How many rows a table has, and how many places a row.
pub const TABLE_SIZE: usize = 64;
// What a row is filled up with.
pub const FILLER: u8 = 255;
// The number that asks for any name.
pub const ANY_NAME: u8 = 255;

// Row p has the child names of name p, in file order, filled up with 255.
pub type Table = [[u8; 64]; 64];

// A row as a slice; a proof learns here how long it is.
pub fn whole(row: &[u8; 64]) -> &[u8]
    ensures { (result.now ≡ row.now) × (length result.now ≡ 64) }
{
    row
}

// The rows of a table as a slice.
pub fn rows_of(table: &Table) -> &[[u8; 64]]
    ensures { (result.now ≡ table.now) × (length result.now ≡ 64) }
{
    table
}

// How many names a row has before its filler.
#[tactic(auto, using(crate::proofs::Rows::count_stop, crate::proofs::Rows::count_on, crate::proofs::Rows::count_end))]
pub fn row_len(row: &[u8]) -> usize
    ensures { result ≡ length (spec.names_of row.now) }
{
    for (i, name) in row.iter().enumerate() {
        if *name == FILLER {
            return i;
        }
    }
    row.len()
}
