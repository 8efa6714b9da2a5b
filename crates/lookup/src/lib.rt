// Looking up a label among the records of a store.
#![tactic(auto)]

ghost use Rattle.std.specs.Prelude.{◌≡◌, true, ◌+◌, ◌*◌, ◌≤◌, length, get_or};
ghost use Rattle.basics.specs.Basics.{leading};
ghost use Rattle.storage.specs.Store.{read_element, elements};
ghost use Rattle.records.specs.Records.{record_at};
ghost use Rattle.bridges.specs.Options.{optional};
ghost use Rattle.lookup.specs.Places.{place_at, passes, InLabelOrder};

use label_order::{before, shared};
use records::label_at;

// A record comes before a label or, with the subtree, is in it.
#[tactic(auto, using(crate::proofs::Steps::passes_before, crate::proofs::Steps::passes_not, crate::proofs::Steps::passes_inside))]
fn record_passes(store: &[u16], r: usize, label: &[u16], subtree: bool) -> bool
    requires { (r * 20 + 20 ≤ length store.now) × (get_or store.now (r * 20) 0 ≤ 15) }
    ensures { result ≡ passes subtree label.now (read_element (record_at r store.now)) }
{
    let l = label_at(store, r);
    if before(l, label) {
        return true;
    }
    if !subtree {
        return false;
    }
    shared(label, l) == label.len()
}

// How many records pass: a binary search.
#[tactic(auto, using(crate::proofs::Steps::rank_most, crate::proofs::Steps::in_room, crate::proofs::Steps::in_shallow, basics::proofs::Leading::middle_in, crate::proofs::Steps::rank_over, crate::proofs::Steps::rank_under))]
fn rank(store: &[u16], count: usize, label: &[u16], subtree: bool) -> usize
    requires { InLabelOrder count store.now }
    ensures { result ≡ leading (passes subtree label.now) (elements count store.now) }
{
    let mut low: usize = 0;
    let mut high = count;
    while low < high {
        let middle = low + (high - low) / 2;
        if record_passes(store, middle, label, subtree) {
            low = middle + 1;
        } else {
            high = middle;
        }
    }
    low
}

// The record with a label.
#[tactic(auto, using(crate::proofs::Steps::lookup_past, crate::proofs::Steps::in_room, crate::proofs::Steps::in_shallow, crate::proofs::Steps::lookup_other, crate::proofs::Steps::lookup_here))]
pub fn lookup(store: &[u16], count: usize, label: &[u16]) -> Option<usize>
    requires { InLabelOrder count store.now }
    ensures { result ≡ optional (place_at label.now (elements count store.now)) }
{
    let r = rank(store, count, label, false);
    if count <= r {
        return None;
    }
    if label_at(store, r) == label {
        Some(r)
    } else {
        None
    }
}

// The record behind the last one of a label's subtree.
pub fn subtree_end(store: &[u16], count: usize, label: &[u16]) -> usize
    requires { InLabelOrder count store.now }
    ensures { result ≡ leading (passes true label.now) (elements count store.now) }
{
    rank(store, count, label, true)
}
