// Soundness: the first record of a store that breaks a rule, found in one pass.
#![tactic(auto)]

ghost use Rattle.std.specs.Prelude.{◌≡◌, [], ◌+◌, ◌-◌, ◌*◌, ◌≤◌, length, get_or};
ghost use Rattle.naming.specs.Names.{clues_of};
ghost use Rattle.storage.specs.Store as spec;
ghost use Rattle.clue_lengths.specs.Lengths.{lengths_of};
ghost use Rattle.refusals.specs.Answers.{verdict_of};
ghost use Rattle.record_rules.specs.Rules.{shared_before, depth_fits};
ghost use Rattle.soundness.specs.Answers.{paper_rule, soundness_of};

use clue_lengths::{lengths_of, lengths_slice};
use label_padding::{UNUSED, rest_zero};
use label_words::shared_part;
use labels::Label;
use names::Table;
use record_rules::{Rule, record_rules};
use records::{Store, label_at};
use refusals::{Refusal, Verdict, refuse};

// The first rule that a store breaks, and the place of the record that breaks it.
#[derive(Drop)]
pub struct Fault {
    pub rule: Rule,
    pub place: usize,
}

// The number by which a record that breaks a rule is refused.
#[tactic(auto, using(crate::proofs::Checks::layout_number, crate::proofs::Checks::order_number, crate::proofs::Checks::parent_number, crate::proofs::Checks::name_number, crate::proofs::Checks::last_number, crate::proofs::Checks::next_number))]
fn number_of(rule: Rule) -> u8
    ensures { result ≡ spec.number_of (paper_rule rule) }
{
    match rule {
        Rule::Layout => Refusal::BAD_LAYOUT,
        Rule::Order => Refusal::BAD_ORDER,
        Rule::Parent => Refusal::BAD_ORDER,
        Rule::Name => Refusal::BAD_NAME,
        Rule::Last => Refusal::BAD_NEXT,
        Rule::Next => Refusal::BAD_NEXT,
    }
}

// Whether a depth fits its record: at most 15, and 0 for record 0 only.
#[tactic(auto, using(record_rules::proofs::Depths::depth_over, record_rules::proofs::Depths::depth_root, record_rules::proofs::Depths::depth_below))]
fn depth_fits(r: usize, depth: usize) -> bool
    ensures { result ≡ depth_fits r depth }
{
    if Label::MAX_DEPTH < depth {
        return false;
    }
    if r == 0 {
        return depth == 0;
    }
    0 < depth
}

// How many components record r shares with the previous one: none for record 0.
#[tactic(auto, using(record_rules::proofs::Shared::shares_root, record_rules::proofs::Shared::shares_child))]
fn shared_before(store: &[u16], r: usize) -> usize
    requires { (r * 20 + 20 ≤ length store.now) × (get_or store.now ((r - 1) * 20) 0 ≤ 15) × (get_or store.now (r * 20) 0 ≤ 15) }
    ensures { result ≡ shared_before store.now r }
{
    if r == 0 {
        return 0;
    }
    shared_part(label_at(store, r - 1), label_at(store, r))
}

// The first record that breaks a rule, read from the front.
#[tactic(auto, using(crate::proofs::Scan::scan_previous, crate::proofs::Fits::found_depth, crate::proofs::Shared::shares_small, crate::proofs::Scan::scan_start, crate::proofs::Tested::tested_shared, crate::proofs::Tested::tested_on, crate::proofs::Scan::scan_end, crate::proofs::Scan::scan_depth, crate::proofs::Tested::tested_over, crate::proofs::Tested::tested_rest))]
fn first_fault(table: &Table, lengths: &[usize], store: &[u16], count: usize) -> Result<(), Fault>
    requires { (lengths.now ≡ lengths_of table.now) × (count * 20 ≤ length store.now) }
    ensures { result ≡ soundness_of (spec.fault (clues_of table.now) [] (spec.records count store.now)) }
{
    let mut found = Ok(());
    // A constant array is made anew wherever it is read, so it is read once.
    let unused = UNUSED;
    // The record that an element of each depth would stand below.
    let mut parents = [0usize; 17];
    'records: for r in 0..count {
        let at = r * Store::RECORD_WORDS;
        let depth = store[at] as usize;
        if !depth_fits(r, depth) {
            found = Err(Fault {
                rule: Rule::Layout,
                place: r,
            });
            break 'records;
        }
        // The components shared with the previous record were tested there, so the test begins behind them.
        let s = shared_before(store, r);
        for w in s + 1..depth + 1 {
            if Label::MAX_COMPONENT < store[at + w] {
                found = Err(Fault {
                    rule: Rule::Layout,
                    place: r,
                });
                break 'records;
            }
        }
        if !rest_zero(&unused, store, at, depth) {
            found = Err(Fault {
                rule: Rule::Layout,
                place: r,
            });
            break 'records;
        }
        if let Err(rule) = record_rules(table, lengths, store, r, s, parents[depth]) {
            found = Err(Fault { rule, place: r });
            break 'records;
        }
        parents[depth + 1] = r;
    }
    found
}

// The check of the records in use: record by record 19, 23, 24, 25.
#[tactic(auto, using(clue_lengths::proofs::Lengths::lengths_lent, crate::proofs::Checks::records_sound))]
pub fn check_records(table: &Table, store: &[u16], count: usize) -> Verdict
    requires { count * 20 ≤ length store.now }
    ensures { result ≡ verdict_of (spec.sound_check (clues_of table.now) count store.now) }
{
    let lengths = lengths_of(table);
    match first_fault(table, lengths_slice(&lengths), store, count) {
        Ok(()) => Verdict::Passed,
        Err(fault) => refuse(number_of(fault.rule), fault.place),
    }
}
