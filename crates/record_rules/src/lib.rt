// The rules that a record of a sound store keeps behind its layout: the first one that it breaks.
#![tactic(auto)]

ghost use Rattle.std.specs.Prelude.{◌≡◌, ◌+◌, ◌*◌, ◌≤◌, length, get_or};
ghost use Rattle.naming.specs.Names.{clues_of};
ghost use Rattle.labelling.specs.Labels.{label_of, shared};
ghost use Rattle.storage.specs.Store as spec;
ghost use Rattle.clue_lengths.specs.Lengths.{lengths_of};
ghost use Rattle.records.specs.Records.{record_at};
ghost use Rattle.record_rules.specs.Rules.{Ready, shared_before, closed_by, broken_root, broken_below, broken_at};
ghost use Rattle.record_rules.specs.Answers.{check_of};

use clue_lengths::length_of;
use clues::child_among;
use label_order::ordered;
use labels::Label;
use names::{MAX_NAME, Table};
use records::{Store, label_at};

// The rules of a sound record, in order.
#[derive(Drop)]
pub enum Rule {
    Layout,
    Order,
    Parent,
    Name,
    Last,
    Next,
}

// Whether a next number keeps its rule: it is 0 if the clue is empty or the depth is 15.
#[tactic(auto, using(crate::proofs::Rules::closed_zero, crate::proofs::Rules::closed_deep, crate::proofs::Rules::closed_clue))]
fn closed(n: usize, depth: usize, next: u16) -> bool
    ensures { result ≡ closed_by n depth next }
{
    if next == 0 {
        return true;
    }
    if depth == Label::MAX_DEPTH {
        return false;
    }
    n != 0
}

// Whether a component leads from a parent's name, whose clue has n names, to a name.
#[tactic(auto, using(crate::proofs::Rules::leads_nowhere, crate::proofs::Rules::leads_name))]
fn leads(table: &Table, parent: u16, n: usize, component: u16, name: u16) -> bool
    requires { n ≡ length (clues_of table.now parent) }
    ensures { result ≡ spec.leads (clues_of table.now parent) component name }
{
    match child_among(table, parent as usize, n, component) {
        Some(child) => u16::from(child) == name,
        None => false,
    }
}

// The rules of record 0 behind its layout.
#[tactic(auto, using(crate::proofs::Rules::root_high, crate::proofs::Rules::root_next, clue_lengths::proofs::Lengths::length_is, crate::proofs::Rules::root_kept))]
fn root_rules(table: &Table, lengths: &[usize], store: &[u16]) -> Result<(), Rule>
    requires { (lengths.now ≡ lengths_of table.now) × (20 ≤ length store.now) × (get_or store.now 0 0 ≡ 0) }
    ensures { result ≡ check_of (broken_root (clues_of table.now) (spec.read_element (record_at 0 store.now))) }
{
    let name = store[Store::NAME];
    if u16::from(MAX_NAME) < name {
        return Err(Rule::Name);
    }
    if !closed(length_of(lengths, name as usize), 0, store[Store::NEXT]) {
        return Err(Rule::Next);
    }
    Ok(())
}

// The rules of record r + 1 behind its layout, where it shares s components
// with record r and stands below the record with the number `parent`.
#[tactic(auto, using(crate::proofs::Rules::shared_lent, crate::proofs::Rules::below_order, crate::proofs::Rules::below_parent, clue_lengths::proofs::Lengths::length_is, crate::proofs::Rules::below_name, crate::proofs::Rules::below_last, crate::proofs::Rules::below_next, crate::proofs::Rules::below_kept))]
fn child_rules(
    table: &Table,
    lengths: &[usize],
    store: &[u16],
    r: usize,
    s: usize,
    parent: usize,
) -> Result<(), Rule>
    requires { (lengths.now ≡ lengths_of table.now) × (s ≡ shared (label_of (record_at r store.now)) (label_of (record_at (r + 1) store.now))) × (r * 20 + 40 ≤ length store.now) × (parent * 20 + 20 ≤ length store.now) × (get_or store.now (r * 20) 0 ≤ 15) × (get_or store.now ((r + 1) * 20) 0 ≤ 15) }
    ensures { result ≡ check_of (broken_below (clues_of table.now) (spec.read_element (record_at r store.now)) (spec.read_element (record_at parent store.now)) (spec.read_element (record_at (r + 1) store.now))) }
{
    let previous = label_at(store, r);
    let label = label_at(store, r + 1);
    if !ordered(previous, label, s) {
        return Err(Rule::Order);
    }
    if s + 1 != label.len() {
        return Err(Rule::Parent);
    }
    let last = label[s];
    let at = (r + 1) * Store::RECORD_WORDS;
    let up = parent * Store::RECORD_WORDS;
    let name = store[at + Store::NAME];
    let above = store[up + Store::NAME];
    if !leads(table, above, length_of(lengths, above as usize), last, name) {
        return Err(Rule::Name);
    }
    if store[up + Store::NEXT] <= last {
        return Err(Rule::Last);
    }
    if !closed(
        length_of(lengths, name as usize),
        s + 1,
        store[at + Store::NEXT],
    ) {
        return Err(Rule::Next);
    }
    Ok(())
}

// The rules of record r behind its layout.
#[tactic(auto, using(crate::proofs::Ready::at_root, crate::proofs::Ready::at_child))]
pub fn record_rules(
    table: &Table,
    lengths: &[usize],
    store: &[u16],
    r: usize,
    s: usize,
    parent: usize,
) -> Result<(), Rule>
    requires { (lengths.now ≡ lengths_of table.now) × (s ≡ shared_before store.now r) × Ready store.now r parent }
    ensures { result ≡ check_of (broken_at (clues_of table.now) store.now r parent) }
{
    if r == 0 {
        return root_rules(table, lengths, store);
    }
    child_rules(table, lengths, store, r - 1, s, parent)
}
