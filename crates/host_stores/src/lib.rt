// Stores for a host program: a new store, entry and deletion. The value is the count of records in use.
#![tactic(auto)]

ghost use Rattle.std.specs.Prelude.{◌≡◌};
ghost use Rattle.store_calls.specs.Updates as updates;
ghost use Rattle.table_bytes.specs.Rows.{table_in};
ghost use Rattle.host_answers.specs.Reports.{fitted, report};
ghost use Rattle.host_stores.specs.Calls.{change_report};

use host_answers::{tell, tell_label};
use table_bytes::table_in;

// A new store: 18, 21. The value is the count.
#[unsafe(no_mangle)]
pub extern "C" fn jiszteruk_new_store(
    store: &mut [u16],
    root: u8,
    payload0: u16,
    payload1: u16,
    answer: &mut [usize],
) -> u8
    ensures told { report result answer.new ≡ change_report (updates.new_store store.old root payload0 payload1) answer.old }
    ensures written { store.new ≡ (updates.new_store store.old root payload0 payload1).slice }
{
    let opened = new_stores::new_store(store, root, [payload0, payload1]);
    let verdict = opened.verdict;
    tell(verdict, opened.count, answer)
}

// An entry, 22, 18, 19, 23 to 25, 15, 9, 10, 11, 12, 13. The value is the count;
// the new label is sixteen words, zeros in a refusal.
#[unsafe(no_mangle)]
pub extern "C" fn jiszteruk_enter(
    table: &[u8],
    store: &mut [u16],
    count: usize,
    parent: &[u16],
    name: u8,
    payload0: u16,
    payload1: u16,
    label: &mut [u16],
    answer: &mut [usize],
) -> u8
    ensures told { report result answer.new ≡ change_report (updates.enter (table_in table.now) store.old count parent.now name payload0 payload1) answer.old }
    ensures written { store.new ≡ (updates.enter (table_in table.now) store.old count parent.now name payload0 payload1).slice }
    ensures labelled { label.new ≡ fitted (updates.enter (table_in table.now) store.old count parent.now name payload0 payload1).label label.old }
{
    let entered = entries::enter(
        table_in(table),
        store,
        count,
        parent,
        name,
        [payload0, payload1],
    );
    let words = entered.label;
    tell_label(&words, label);
    let verdict = entered.verdict;
    tell(verdict, entered.count, answer)
}

// A deletion of the element with a label and of all below it: 22, 18, 19, 23 to 25, 15, 14, 9. The value is the count.
#[unsafe(no_mangle)]
pub extern "C" fn jiszteruk_delete(
    table: &[u8],
    store: &mut [u16],
    count: usize,
    label: &[u16],
    answer: &mut [usize],
) -> u8
    ensures told { report result answer.new ≡ change_report (updates.delete (table_in table.now) store.old count label.now) answer.old }
    ensures written { store.new ≡ (updates.delete (table_in table.now) store.old count label.now).slice }
{
    let deleted = deletions::delete(table_in(table), store, count, label);
    let verdict = deleted.verdict;
    tell(verdict, deleted.count, answer)
}
