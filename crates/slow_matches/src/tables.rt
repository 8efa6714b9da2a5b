// The tables that stores are made under.
use bench_names::bench_table;
use name_files::read_names;
use names::Table;

// Names below themselves and each other.
const NESTED: [u8; 10] = [0, 0, 0, 1, 1, 0, 1, 1, 1, 2];

// One name below itself, and one with nothing below it.
const CHAIN: [u8; 4] = [0, 0, 0, 1];

// A file of sixteen names, each below every one: its pairs and its bytes.
const PAIRS: usize = 256;

const FILE_BYTES: usize = 512;

// How many tables there are.
pub const TABLES: usize = 4;

// A table of many names.
fn many() -> Table {
    let mut file = [0u8; FILE_BYTES];
    for i in 0..PAIRS {
        file[i * 2] = (i / 16) as u8;
        file[i * 2 + 1] = (i % 16) as u8;
    }
    read_names(&file)
}

// The table of a kind.
pub fn table(kind: usize) -> Table {
    match kind {
        0 => bench_table(),
        1 => read_names(&NESTED),
        2 => read_names(&CHAIN),
        _ => many(),
    }
}
