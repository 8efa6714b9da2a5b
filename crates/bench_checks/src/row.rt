// What the numbers of a row stand for.
use bench_names::bench_table;
use name_files::read_names;
use names::Table;
use wrapping::{half, sum};

// Some numbers of a row put over the front of words; what is not in the row is 0.
pub fn put_words(row: &[usize], from: usize, many: usize, words: &mut [u16]) {
    for (i, word) in words.iter_mut().take(many).enumerate() {
        *word = half(row, sum(from, i));
    }
}

// Names 0 to 63, in a row of a table that has no filler.
fn all_names() -> [u8; 64] {
    let mut names = [0u8; 64];
    for i in 0..64u8 {
        names[i as usize] = i;
    }
    names
}

// A table: 0 the bench's, 1 the bench's with an entry that is no name, 2 name 0 below itself, 3 all names below the
// first and the last.
pub fn table(kind: usize) -> Table {
    let mut t = bench_table();
    if kind == 1 {
        t[0][0] = 64;
    }
    if kind == 2 {
        t = read_names(&[0, 0, 0, 1]);
    }
    if kind == 3 {
        t[0] = all_names();
        t[63] = all_names();
    }
    t
}
