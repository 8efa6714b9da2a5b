// The check of a store: its table, its sizes, then its records.
#![tactic(auto)]

ghost use Rattle.std.specs.Prelude.{◌≡◌};
ghost use Rattle.refusals.specs.Answers.{verdict_of};
ghost use Rattle.store_checks.specs.Stores.{store_check};

use names::Table;
use records::Store;
use refusals::Verdict;
use soundness::check_records;
use table_checks::table_verdict;

// The checks of a lent table and store: 22, 18, 19, 23 to 25.
pub fn store_verdict(table: &Table, store: &[u16], count: usize) -> Verdict
    ensures { result ≡ verdict_of (store_check table.now store.now count) }
{
    if let Verdict::Refused(refusal) = table_verdict(table) {
        return Verdict::Refused(refusal);
    }
    let size = Store {
        words: store.len(),
        count,
    };
    if let Verdict::Refused(refusal) = size.check_size() {
        return Verdict::Refused(refusal);
    }
    check_records(table, store, count)
}

// The check of a store: 22, 18, 19, 23 to 25.
pub fn check_store(table: Table, store: &[u16], count: usize) -> Verdict
    ensures { result ≡ verdict_of (store_check table store.now count) }
{
    store_verdict(&table, store, count)
}
