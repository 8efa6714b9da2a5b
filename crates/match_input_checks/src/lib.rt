// The checks of matching before it reads a stream: table, root name, twig and counts in turn.
#![tactic(auto)]

ghost use Rattle.std.specs.Prelude.{◌≡◌};
ghost use Rattle.refusals.specs.Answers.{verdict_of};
ghost use Rattle.match_input_checks.specs.Inputs.{input_check};

use match_stream_counts::check_counts;
use names::{MAX_NAME, Table};
use refusals::{Refusal, Verdict, refuse};
use table_checks::table_verdict;
use twig_checks::check_twig;

// The checks in turn of the table, 22, the root's name, 21, the twig, 4 to 8, and the counts, 20.
pub fn check_input(table: &Table, root: u8, twig: &[u8], counts: &[usize], words: usize) -> Verdict
    ensures { result ≡ verdict_of (input_check table.now root twig.now counts.now words) }
{
    let checked = table_verdict(table);
    let Verdict::Passed = checked else {
        return checked;
    };
    if MAX_NAME < root {
        return refuse(Refusal::BAD_ROOT, 0);
    }
    let checked = check_twig(twig);
    let Verdict::Passed = checked else {
        return checked;
    };
    check_counts(twig, counts, words)
}
