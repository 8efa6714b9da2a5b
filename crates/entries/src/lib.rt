// Entry: an element put in below another one of a store.
#![tactic(auto)]

ghost use Rattle.std.specs.Prelude.{◌≡◌, true, ◌+◌, ◌*◌, ◌≤◌, length, get_or};
ghost use Rattle.std.proofs.Math.Option.{some};
ghost use Rattle.naming.specs.Names.{clues_of};
ghost use Rattle.labelling.specs.Labels.{label_of, is_label};
ghost use Rattle.storage.specs.Store.{read_element, elements};
ghost use Rattle.store_calls.specs.Updates as spec;
ghost use Rattle.records.specs.Records.{record_at};
ghost use Rattle.lookup.specs.Places.{place_at, InLabelOrder};
ghost use Rattle.additions.specs.Answers.{entry_and_words};
ghost use Rattle.entries.specs.Answers.{entry_of, gift_of, entered_below};

use additions::{Entry, add_child, refused};
use changes::check_call;
use clues::{clue_len, place_of};
use labels::{Label, components};
use lookup::lookup;
use names::Table;
use numbers::next_number;
use records::Store;
use refusals::{Refusal, Verdict, refuse};

// What the parent at record a gives a child with a name: 10, 11, 12.
#[tactic(auto, using(crate::proofs::Gifts::gift_absent, crate::proofs::Gifts::gift_deep, crate::proofs::Gifts::gift_none))]
fn number_below(table: &Table, words: &[u16], a: usize, name: u8) -> Result<u16, Refusal>
    requires { (a * 20 + 20 ≤ length words.now) × (get_or words.now (a * 20) 0 ≤ 15) }
    ensures { result ≡ gift_of (clues_of table.now) (read_element (record_at a words.now)) name }
{
    let at = a * Store::RECORD_WORDS;
    let parent = words[at + Store::NAME] as usize;
    let Some(k) = place_of(table, parent, name) else {
        return Err(Refusal {
            number: Refusal::NOT_IN_CLUE,
            place: 0,
        });
    };
    if Label::MAX_DEPTH <= words[at] as usize {
        return Err(Refusal {
            number: Refusal::TOO_DEEP,
            place: 0,
        });
    }
    let n = clue_len(table, parent);
    let Some(x) = next_number(n, k, words[at + Store::NEXT]) else {
        return Err(Refusal {
            number: Refusal::NO_NUMBER,
            place: 0,
        });
    };
    Ok(x)
}

// An entry below the record a, which has the label `parent`: 10, 11, 12, 13.
#[tactic(auto, using(changes::proofs::InUse::record_inside, changes::proofs::InUse::record_shallow, crate::proofs::Gifts::gift_low, crate::proofs::Gifts::gift_high, crate::proofs::Gifts::below_added))]
fn enter_below(
    table: &Table,
    words: &mut [u16],
    count: usize,
    a: usize,
    parent: &[u16],
    name: u8,
    payload: [u16; 2],
) -> Entry
    requires { InLabelOrder count words.old × (is_label parent.now ≡ true) × (place_at (label_of parent.now) (elements count words.old) ≡ some a) }
    ensures { entry_and_words result words.new ≡ entered_below (clues_of table.now) words.old count a (label_of parent.now) name (get_or payload 0 0) (get_or payload 1 0) }
{
    match number_below(table, words, a, name) {
        Ok(x) => add_child(words, count, a, parent, x, name, payload),
        Err(refusal) => refused(Verdict::Refused(refusal), count),
    }
}

// An entry below the record with a label: 22, 18, 19, 23 to 25, 15, 9, 10, 11, 12, 13.
#[tactic(auto, using(changes::proofs::Checks::call_searchable, changes::proofs::Checks::call_label, crate::proofs::EntryAnswers::enter_unchecked, crate::proofs::EntryAnswers::enter_absent, crate::proofs::EntryAnswers::enter_done))]
pub fn enter(
    table: Table,
    words: &mut [u16],
    count: usize,
    parent: &[u16],
    name: u8,
    payload: [u16; 2],
) -> Entry
    ensures { entry_and_words result words.new ≡ entry_of (spec.enter table words.old count parent.now name (get_or payload 0 0) (get_or payload 1 0)) }
{
    let called = check_call(&table, words, count, parent);
    let Verdict::Passed = called else {
        return refused(called, count);
    };
    let Some(a) = lookup(words, count, components(parent)) else {
        return refused(refuse(Refusal::NO_RECORD, 0), count);
    };
    enter_below(&table, words, count, a, parent, name, payload)
}
