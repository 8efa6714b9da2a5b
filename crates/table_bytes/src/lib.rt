// Tables as bytes, row after row: bytes taken as a table, and a table written to bytes.
#![tactic(auto)]

ghost use Rattle.std.specs.Prelude.{◌≡◌, ◌+◌, ◌*◌, ◌≤◌, length};
ghost use Rattle.basics.specs.Basics.{joined};
ghost use Rattle.table_bytes.specs.Rows.{rows_in, table_in};
ghost use Rattle.words.specs.Writing.{written};

use names::{FILLER, TABLE_SIZE, Table, rows_of, whole};

// How many bytes a table has: sixty-four rows of sixty-four.
pub const TABLE_BYTES: usize = 4096;

// A number that is no name, and that no table holds.
const NO_NAME: u8 = 64;

// Sixty-four bytes as a row.
fn row_of(bytes: &[u8]) -> [u8; 64]
    requires { length bytes.now ≡ 64 }
    ensures { result ≡ bytes.now }
{
    let mut row = [FILLER; 64];
    let mut k: usize = 0;
    while k < bytes.len() {
        row[k] = bytes[k];
        k += 1;
    }
    row
}

// The table whose rows stand one after the other in its bytes.
fn table_of(bytes: &[u8]) -> Table
    requires { length bytes.now ≡ 64 * 64 }
    ensures { result ≡ rows_in bytes.now }
{
    let mut table: Table = [[FILLER; 64]; 64];
    let mut p: usize = 0;
    while p < TABLE_SIZE {
        let start = p * TABLE_SIZE;
        table[p] = row_of(&bytes[start..start + TABLE_SIZE]);
        p += 1;
    }
    table
}

// The table that bytes are taken as; other than 4,096 bytes are a table that 22 rules out.
pub fn table_in(bytes: &[u8]) -> Table
    ensures { result ≡ table_in bytes.now }
{
    if bytes.len() != TABLE_BYTES {
        return [[NO_NAME; 64]; 64];
    }
    table_of(bytes)
}

// Writes a row to bytes from a place on.
fn put_row(row: &[u8], bytes: &mut [u8], at: usize)
    requires { (length row.now ≡ 64) × (at + 64 ≤ length bytes.old) }
    ensures { bytes.new ≡ written at row.now bytes.old }
{
    let mut k: usize = 0;
    while k < row.len() {
        bytes[at + k] = row[k];
        k += 1;
    }
}

// Writes a table to bytes, its rows one after the other.
pub fn put_table(table: &Table, bytes: &mut [u8])
    requires { length bytes.old ≡ 64 * 64 }
    ensures { bytes.new ≡ joined table.now }
{
    let rows = rows_of(table);
    let mut p: usize = 0;
    while p < rows.len() {
        let row = rows[p];
        put_row(whole(&row), bytes, p * TABLE_SIZE);
        p += 1;
    }
}
