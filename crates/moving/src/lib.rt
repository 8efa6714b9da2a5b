// Records of twenty words moved within a lent slice; record r stands at word 20 * r.
#![tactic(auto)]

ghost use Rattle.std.specs.Prelude.{◌≡◌, ◌+◌, ◌*◌, ◌<◌, ◌≤◌, length, take, drop};
ghost use Rattle.basics.specs.Limits.{record_size};
ghost use Rattle.moving.specs.Moves.{put, shifted_up, shifted_down, cleared, inserted, removed};

use records::Store;
use words::overwrite;

// Copies a record to the place of another.
fn copy_record(words: &mut [u16], from: usize, to: usize)
    requires { (record_size * (from + 1) ≤ length words.old) × (record_size * (to + 1) ≤ length words.old) }
    ensures { words.new ≡ put words.old to (take record_size (drop (record_size * from) words.old)) }
{
    let mut i: usize = 0;
    while i < Store::RECORD_WORDS {
        words[Store::RECORD_WORDS * to + i] = words[Store::RECORD_WORDS * from + i];
        i += 1;
    }
}

// Moves the records at .. count one place up, the last first.
fn shift_up(words: &mut [u16], at: usize, count: usize)
    requires { (at ≤ count) × (record_size * (count + 1) ≤ length words.old) }
    ensures { words.new ≡ shifted_up words.old at count }
{
    let mut i: usize = count;
    while at < i {
        i -= 1;
        copy_record(words, i, i + 1);
    }
}

// Moves the records from .. count down to a lower place, the first first.
fn shift_down(words: &mut [u16], to: usize, from: usize, count: usize)
    requires { (to ≤ from) × (from ≤ count) × (record_size * count ≤ length words.old) }
    ensures { words.new ≡ shifted_down words.old to from count }
{
    let mut i: usize = from;
    while i < count {
        copy_record(words, i, to + (i - from));
        i += 1;
    }
}

// Fills the records from .. count with zeros.
fn clear_records(words: &mut [u16], from: usize, count: usize)
    requires { (from ≤ count) × (record_size * count ≤ length words.old) }
    ensures { words.new ≡ cleared words.old from count }
{
    let n = Store::RECORD_WORDS * (count - from);
    let mut k: usize = 0;
    while k < n {
        words[Store::RECORD_WORDS * from + k] = 0;
        k += 1;
    }
}

// Puts a record in the place of another.
fn put_record(words: &mut [u16], at: usize, rec: &[u16])
    requires { (length rec.now ≡ record_size) × (record_size * (at + 1) ≤ length words.old) }
    ensures { words.new ≡ put words.old at rec.now }
{
    overwrite(&mut words[Store::RECORD_WORDS * at..], rec);
}

// Puts a record in at a place, and moves those from there to count one place up.
pub fn insert(words: &mut [u16], at: usize, count: usize, rec: &[u16])
    requires { (at ≤ count) × (record_size * (count + 1) ≤ length words.old) × (length rec.now ≡ record_size) }
    ensures { words.new ≡ inserted words.old at count rec.now }
{
    shift_up(words, at, count);
    put_record(words, at, rec);
}

// Takes the records from .. to out, moves those to .. count down, and fills the freed ones with zeros.
pub fn remove(words: &mut [u16], from: usize, to: usize, count: usize)
    requires { (from < to) × (to ≤ count) × (record_size * count ≤ length words.old) }
    ensures { words.new ≡ removed words.old from to count }
{
    shift_down(words, from, to, count);
    clear_records(words, from + (count - to), count);
}
