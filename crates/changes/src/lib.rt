// What the calls that change a store share: their answer,
// the checks before their own, and the root's record, from which a child's is made.
#![tactic(auto)]

ghost use Rattle.std.specs.Prelude.{◌≡◌, length, get_or};
ghost use Rattle.basics.specs.Limits.{record_size};
ghost use Rattle.storage.specs.Store.{element_words};
ghost use Rattle.refusals.specs.Answers.{verdict_of};
ghost use Rattle.changes.specs.Answers.{call_check, root_element};

use label_checks::check_label;
use names::Table;
use records::Store;
use refusals::Verdict;
use store_checks::store_verdict;

// What a new store and a deletion answer.
#[derive(Drop)]
pub struct Change {
    pub verdict: Verdict,
    pub count: usize,
}

// The words of a record as a slice.
pub fn words_of(rec: &[u16; 20]) -> &[u16]
    ensures { (result.now ≡ rec.now) × (length result.now ≡ record_size) }
{
    rec
}

// The root's record: a name and two payload words, with the next number 0.
#[tactic(auto, unfolding(storage::specs::Store::element_words, labelling::specs::Labels::label_words))]
pub fn root_record(root: u8, payload: [u16; 2]) -> [u16; 20]
    ensures { result ≡ element_words (root_element root (get_or payload 0 0) (get_or payload 1 0)) }
{
    let mut rec = [0u16; 20];
    rec[Store::NAME] = root as u16;
    rec[Store::PAYLOAD] = payload[0];
    rec[Store::PAYLOAD + 1] = payload[1];
    rec
}

// The checks before those of a call's own: 22, 18, 19, 23 to 25 and 15.
#[tactic(auto, using(crate::proofs::Checks::call_unsound, crate::proofs::Checks::call_labelled))]
pub fn check_call(table: &Table, words: &[u16], count: usize, label: &[u16]) -> Verdict
    ensures { result ≡ verdict_of (call_check table.now words.now count label.now) }
{
    let sound = store_verdict(table, words, count);
    let Verdict::Passed = sound else {
        return sound;
    };
    check_label(label)
}
