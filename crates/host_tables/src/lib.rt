// Tables for a host program: one read from a child-name file, and the bench's own.
// A table is 4,096 bytes, row after row; a slice of another length is refused by 22 and left alone.
#![tactic(auto)]

ghost use Rattle.std.specs.Prelude.{◌≡◌};
ghost use Rattle.host_answers.specs.Reports.{report};
ghost use Rattle.host_tables.specs.Calls.{read_report, table_read, bench_number, bench_bytes};

use host_answers::tell;
use refusals::{Refusal, refuse};
use table_bytes::{TABLE_BYTES, put_table};

// The table of a child-name file, written to an output: 22, 1, 2, 3. A refused file gives a table of empty clues.
#[unsafe(no_mangle)]
pub extern "C" fn jiszteruk_read_names(file: &[u8], table: &mut [u8], answer: &mut [usize]) -> u8
    ensures told { report result answer.new ≡ read_report file.now table.old answer.old }
    ensures written { table.new ≡ table_read file.now table.old }
{
    if table.len() != TABLE_BYTES {
        return tell(refuse(Refusal::BAD_TABLE, 0), 0, answer);
    }
    let rows = name_files::read_names(file);
    put_table(&rows, table);
    tell(name_files::check_names(file), 0, answer)
}

// The bench's own table: 22.
#[unsafe(no_mangle)]
pub extern "C" fn jiszteruk_bench_table(table: &mut [u8]) -> u8
    ensures number { result ≡ bench_number table.old }
    ensures written { table.new ≡ bench_bytes table.old }
{
    if table.len() != TABLE_BYTES {
        return Refusal::BAD_TABLE;
    }
    let rows = bench_names::bench_table();
    put_table(&rows, table);
    0
}
