// Three files in memory, each in an area of its own: two bytes tell the file's length, and its own bytes follow.
use bench_names::BENCH_PAIRS;
use guards::{item_at, put};
use prefixes::front;
use records::Store;
use suffixes::behind;
use wrapping::{octet, sum};

// Where the area of names.tab begins.
pub const NAMES: usize = 0;

// Where the area of store.rec begins.
pub const STORE: usize = 10000;

// Where the area of twig.rec begins.
pub const TWIG: usize = 80000;

// The bytes of the three areas.
pub const AREAS: usize = 81000;

// The bytes that tell a length.
const HEAD: usize = 2;

// More records than a store's file may have.
const RECORDS: usize = 1602;

// The names, and their pairs.
const COUNT: usize = 64;

const PAIRS: usize = 4096;

// A number put as two bytes, the low one first.
fn put_two(files: &mut [u8], at: usize, x: usize) {
    put(files, at, (x % 256) as u8);
    put(files, sum(at, 1), (x / 256 % 256) as u8);
}

// A word of a record of store.rec.
fn put_word(files: &mut [u8], r: usize, w: usize, x: usize) {
    let at = r % RECORDS * Store::RECORD_WORDS + w % Store::RECORD_WORDS;
    put_two(files, STORE + HEAD + at * 2, x);
}

// The bytes of a file, by where its area begins.
pub fn file(files: &[u8], area: usize) -> &[u8] {
    let low = item_at(files, area) as usize;
    let high = item_at(files, sum(area, 1)) as usize;
    front(behind(files, sum(area, HEAD)), low + high * 256)
}

// Bytes put into others from a place on; the others are 0.
pub fn fill(to: &mut [u8], at: usize, from: &[u8]) {
    for (i, byte) in to.iter_mut().enumerate() {
        *byte = item_at(from, i.wrapping_sub(at));
    }
}

// begin: the bench's names, and two empty files.
pub fn begin(files: &mut [u8]) {
    fill(files, HEAD, &BENCH_PAIRS);
    put_two(files, NAMES, BENCH_PAIRS.len());
}

// every LENGTH: the length of names.tab, which has each pair of names, parent by parent.
pub fn every(row: &[usize], files: &mut [u8]) {
    put_two(files, NAMES, item_at(row, 1));
    for i in 0..PAIRS {
        put(files, HEAD + i * 2, (i / COUNT) as u8);
        put(files, HEAD + i * 2 + 1, (i % COUNT) as u8);
    }
}

// names LENGTH AT BYTE.. and twig LENGTH AT BYTE..: the length of a file, and its bytes from a place on.
pub fn bytes(row: &[usize], area: usize, files: &mut [u8]) {
    put_two(files, area, item_at(row, 1));
    let at = sum(area, item_at(row, 2));
    for i in 3..=item_at(row, 0) {
        put(files, sum(at, i - 1), octet(row, i));
    }
}

// store LENGTH RECORD WORD X..: the length of store.rec, and the words of a record from one on.
pub fn words(row: &[usize], files: &mut [u8]) {
    put_two(files, STORE, item_at(row, 1));
    for i in 4..=item_at(row, 0) {
        let w = sum(item_at(row, 3), i - 4);
        put_word(files, item_at(row, 2), w, item_at(row, i));
    }
}

// many RECORD COUNT WORD X STEP: a word of each of some records, one step larger with each.
pub fn many(row: &[usize], files: &mut [u8]) {
    let mut x = item_at(row, 4);
    for i in 0..item_at(row, 2) {
        put_word(files, sum(item_at(row, 1), i), item_at(row, 3), x);
        x = sum(x, item_at(row, 5));
    }
}
