// Records of twenty words in a lent slice: how large a store may be, and where the parts of a record stand.
#![tactic(auto)]

ghost use Rattle.std.specs.Prelude.{◌≡◌, ◌+◌, ◌*◌, ◌≤◌, length, get_or};
ghost use Rattle.labelling.specs.Labels.{label_of};
ghost use Rattle.storage.specs.Store as spec;
ghost use Rattle.store_calls.specs.Updates.{space_check};
ghost use Rattle.refusals.specs.Answers.{verdict_of};
ghost use Rattle.records.specs.Records.{record_at};

use refusals::{Refusal, Verdict, refuse};

// A store by its size: the words of its slice, and how many records are in use.
#[derive(Drop)]
pub struct Store {
    pub words: usize,
    pub count: usize,
}

impl Store {
    // The most elements that a store may have.
    pub const MAX_RECORDS: usize = 4096;
    // How many words a record has: the sixteen of its label, and four more.
    pub const RECORD_WORDS: usize = 20;
    // Where the name of a record stands.
    pub const NAME: usize = 16;
    // Where the next number f of a record stands.
    pub const NEXT: usize = 17;
    // Where the two payload words of a record stand.
    pub const PAYLOAD: usize = 18;

    // Whether a slice may have this length: a multiple of 20, and not 0.
    pub fn is_slice(words: usize) -> bool
        ensures { result ≡ spec.is_slice words }
    {
        words % Store::RECORD_WORDS == 0 && 0 < words
    }

    // The check of sizes: 18.
    pub fn check_size(self) -> Verdict
        ensures { result ≡ verdict_of (spec.size_check self.words self.count) }
    {
        let words = self.words;
        let count = self.count;
        if !Store::is_slice(words) {
            return refuse(Refusal::STORE_SIZE, 0);
        }
        if count == 0 {
            return refuse(Refusal::STORE_SIZE, 0);
        }
        if words / Store::RECORD_WORDS < count {
            return refuse(Refusal::STORE_SIZE, 0);
        }
        if Store::MAX_RECORDS < count {
            return refuse(Refusal::STORE_SIZE, 0);
        }
        Verdict::Passed
    }

    // The check for a free record: 13.
    pub fn check_space(self) -> Verdict
        ensures { result ≡ verdict_of (space_check self.words self.count) }
    {
        let words = self.words;
        let count = self.count;
        if words / Store::RECORD_WORDS <= count {
            return refuse(Refusal::NO_SPACE, 0);
        }
        if Store::MAX_RECORDS <= count {
            return refuse(Refusal::NO_SPACE, 0);
        }
        Verdict::Passed
    }
}

// The components of the label of record r.
pub fn label_at(store: &[u16], r: usize) -> &[u16]
    requires { (r * 20 + 20 ≤ length store.now) × (get_or store.now (r * 20) 0 ≤ 15) }
    ensures { (result.now ≡ label_of (record_at r store.now)) × (length result.now ≡ get_or store.now (r * 20) 0) }
{
    let at = r * Store::RECORD_WORDS;
    let depth = store[at] as usize;
    &store[at + 1..at + 1 + depth]
}
