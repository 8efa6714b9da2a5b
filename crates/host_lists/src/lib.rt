// Lists for a host program: the stream of a name, and the matches of a twig.
// The value is how many labels or matches there are.
#![tactic(auto)]

ghost use Rattle.std.specs.Prelude.{◌≡◌};
ghost use Rattle.match_calls.specs.Matching.{match_call};
ghost use Rattle.cut_calls.specs.Cutting as cutting;
ghost use Rattle.table_bytes.specs.Rows.{table_in};
ghost use Rattle.host_answers.specs.Reports.{report};
ghost use Rattle.host_lists.specs.Calls.{listing_report};

use host_answers::tell;
use table_bytes::table_in;

// The stream of a name, or of all names for 255: 22, 18, 19, 23 to 25, 7, 17.
// The value is how many labels the stream has.
#[unsafe(no_mangle)]
pub extern "C" fn jiszteruk_cut(
    table: &[u8],
    store: &[u16],
    count: usize,
    name: u8,
    out: &mut [u16],
    answer: &mut [usize],
) -> u8
    ensures told { report result answer.new ≡ listing_report (cutting.cut (table_in table.now) store.now count name out.old) answer.old }
    ensures written { out.new ≡ (cutting.cut (table_in table.now) store.now count name out.old).output }
{
    let listed = cutting::cut(table_in(table), store, count, name, out);
    let verdict = listed.verdict;
    tell(verdict, listed.count, answer)
}

// All matches of a twig over the streams of its leaves: 22, 21, 4 to 8, 20, 17. The value is how many there are.
#[unsafe(no_mangle)]
pub extern "C" fn jiszteruk_match_twig(
    table: &[u8],
    root: u8,
    twig: &[u8],
    counts: &[usize],
    buffer: &[u16],
    out: &mut [u16],
    answer: &mut [usize],
) -> u8
    ensures told { report result answer.new ≡ listing_report (match_call (table_in table.now) root twig.now counts.now buffer.now out.old) answer.old }
    ensures written { out.new ≡ (match_call (table_in table.now) root twig.now counts.now buffer.now out.old).output }
{
    let matched = matching::match_twig(table_in(table), root, twig, counts, buffer, out);
    let verdict = matched.verdict;
    tell(verdict, matched.count, answer)
}
