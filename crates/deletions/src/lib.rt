// Deletion: an element taken out of a store, and all below it.
#![tactic(auto)]

ghost use Rattle.std.specs.Prelude.{◌≡◌};
ghost use Rattle.std.proofs.Math.Option.{some};
ghost use Rattle.storage.specs.Store.{elements};
ghost use Rattle.store_calls.specs.Updates as spec;
ghost use Rattle.lookup.specs.Places.{place_at, InLabelOrder};
ghost use Rattle.changes.specs.Answers.{changed, change_of};
ghost use Rattle.deletions.specs.Answers.{subtree_removed};

use changes::{Change, check_call};
use labels::components;
use lookup::{lookup, subtree_end};
use moving::remove;
use names::Table;
use refusals::{Refusal, Verdict, refuse};

// Takes out the records of a label's subtree, the first of which is a.
#[tactic(auto, using(crate::proofs::DeletionAnswers::subtree_some, changes::proofs::InUse::end_used, crate::proofs::DeletionAnswers::subtree_over, crate::proofs::DeletionAnswers::subtree_fewer, crate::proofs::DeletionAnswers::subtree_removed_lem))]
fn remove_subtree(words: &mut [u16], count: usize, a: usize, label: &[u16]) -> Change
    requires { InLabelOrder count words.old × (place_at label.now (elements count words.old) ≡ some a) }
    ensures { changed result words.new ≡ subtree_removed words.old count a label.now }
{
    let end = subtree_end(words, count, label);
    remove(words, a, end, count);
    Change {
        verdict: Verdict::Passed,
        count: count - (end - a),
    }
}

// A deletion of the element with a label and of all below it: 22, 18, 19, 23 to 25, 15, 14, 9.
#[tactic(auto, using(changes::proofs::Checks::call_searchable, crate::proofs::DeletionAnswers::delete_unchecked, changes::proofs::Checks::call_label, crate::proofs::DeletionAnswers::delete_root, crate::proofs::DeletionAnswers::delete_absent, crate::proofs::DeletionAnswers::delete_done))]
pub fn delete(table: Table, words: &mut [u16], count: usize, label: &[u16]) -> Change
    ensures { changed result words.new ≡ change_of (spec.delete table words.old count label.now) }
{
    let called = check_call(&table, words, count, label);
    let Verdict::Passed = called else {
        return Change {
            verdict: called,
            count,
        };
    };
    let l = components(label);
    if l.len() == 0 {
        return Change {
            verdict: refuse(Refusal::ROOT_STAYS, 0),
            count,
        };
    }
    let Some(a) = lookup(words, count, l) else {
        return Change {
            verdict: refuse(Refusal::NO_RECORD, 0),
            count,
        };
    };
    remove_subtree(words, count, a, l)
}
