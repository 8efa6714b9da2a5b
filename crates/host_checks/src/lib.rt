// The checks of a table, a store and a twig for a host program: the refusal's number and place, and no value.
#![tactic(auto)]

ghost use Rattle.std.specs.Prelude.{◌≡◌};
ghost use Rattle.naming.specs.Names.{table_check};
ghost use Rattle.patterns.specs.Twigs.{twig_check};
ghost use Rattle.store_checks.specs.Stores.{store_check};
ghost use Rattle.table_bytes.specs.Rows.{table_in};
ghost use Rattle.host_answers.specs.Reports.{report, report_of};

use host_answers::tell;
use table_bytes::table_in;

// The check of a table: 22.
#[unsafe(no_mangle)]
pub extern "C" fn jiszteruk_check_table(table: &[u8], answer: &mut [usize]) -> u8
    ensures { report result answer.new ≡ report_of (table_check (table_in table.now)) 0 answer.old }
{
    tell(table_checks::check_table(table_in(table)), 0, answer)
}

// The check of a store: 22, 18, 19, 23 to 25.
#[unsafe(no_mangle)]
pub extern "C" fn jiszteruk_check_store(
    table: &[u8],
    store: &[u16],
    count: usize,
    answer: &mut [usize],
) -> u8
    ensures { report result answer.new ≡ report_of (store_check (table_in table.now) store.now count) 0 answer.old }
{
    let verdict = store_checks::check_store(table_in(table), store, count);
    tell(verdict, 0, answer)
}

// The check of a twig: 4 to 8.
#[unsafe(no_mangle)]
pub extern "C" fn jiszteruk_check_twig(twig: &[u8], answer: &mut [usize]) -> u8
    ensures { report result answer.new ≡ report_of (twig_check twig.now) 0 answer.old }
{
    tell(twig_checks::check_twig(twig), 0, answer)
}
