// A new store: record 0 written into a lent slice of words.
#![tactic(auto)]

ghost use Rattle.std.specs.Prelude.{◌≡◌, get_or};
ghost use Rattle.store_calls.specs.Updates as spec;
ghost use Rattle.changes.specs.Answers.{changed, change_of};

use changes::{Change, root_record, words_of};
use moving::insert;
use names::MAX_NAME;
use records::Store;
use refusals::{Refusal, Verdict, refuse};

// A new store, its record 0 from a name and two payload words: 18, 21.
pub fn new_store(words: &mut [u16], root: u8, payload: [u16; 2]) -> Change
    ensures { changed result words.new ≡ change_of (spec.new_store words.old root (get_or payload 0 0) (get_or payload 1 0)) }
{
    if !Store::is_slice(words.len()) {
        return Change {
            verdict: refuse(Refusal::STORE_SIZE, 0),
            count: 0,
        };
    }
    if MAX_NAME < root {
        return Change {
            verdict: refuse(Refusal::BAD_ROOT, 0),
            count: 0,
        };
    }
    let rec = root_record(root, payload);
    insert(words, 0, 0, words_of(&rec));
    Change {
        verdict: Verdict::Passed,
        count: 1,
    }
}
