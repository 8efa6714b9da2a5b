// Labels for a host program: the names that a label decodes to,
// the kinship of two labels, and whether one follows the other.
#![tactic(auto)]

ghost use Rattle.std.specs.Prelude.{◌≡◌, cond};
ghost use Rattle.labelling.specs.Labels.{decode_call, kinship_call, follows_call};
ghost use Rattle.table_bytes.specs.Rows.{table_in};
ghost use Rattle.host_answers.specs.Reports.{fitted, report, report_of};
ghost use Rattle.host_labels.specs.Calls.{kinship_report, follows_report};

use host_answers::{tell, tell_names};
use refusals::Verdict;
use table_bytes::table_in;

// The names that a label decodes to, sixteen of them: 22, 21, 15, 16. A refusal gives zeros.
#[unsafe(no_mangle)]
#[tactic(auto, using(crate::proofs::Labels::decode_told, crate::proofs::Labels::decode_named))]
pub extern "C" fn jiszteruk_decode(
    table: &[u8],
    root: u8,
    label: &[u16],
    names: &mut [u8],
    answer: &mut [usize],
) -> u8
    ensures told { report result answer.new ≡ report_of (decode_call (table_in table.now) root label.now).refusal 0 answer.old }
    ensures named { names.new ≡ fitted (decode_call (table_in table.now) root label.now).names names.old }
{
    let decoded = decoding::decode(table_in(table), root, label);
    let path = decoded.names;
    tell_names(&path, names);
    let verdict = decoded.verdict;
    tell(verdict, 0, answer)
}

// Kinship of a first label to a second: 15. The value is 0 to 5, 0 in a refusal.
#[unsafe(no_mangle)]
#[tactic(auto, using(crate::proofs::Labels::kinship_taken, crate::proofs::Labels::kinship_refused))]
pub extern "C" fn jiszteruk_kinship(first: &[u16], second: &[u16], answer: &mut [usize]) -> u8
    ensures { report result answer.new ≡ kinship_report (kinship_call first.now second.now) answer.old }
{
    match kinship::kinship(first, second) {
        Ok(relation) => tell(Verdict::Passed, usize::from(relation.number()), answer),
        Err(refusal) => tell(Verdict::Refused(refusal), 0, answer),
    }
}

// Whether a first label follows a second: 15. The value is 1 for yes, 0 for no and in a refusal.
#[unsafe(no_mangle)]
#[tactic(auto, using(crate::proofs::Labels::follows_taken, crate::proofs::Labels::follows_refused))]
pub extern "C" fn jiszteruk_follows(first: &[u16], second: &[u16], answer: &mut [usize]) -> u8
    ensures { report result answer.new ≡ follows_report (follows_call first.now second.now) answer.old }
{
    match kinship::follows(first, second) {
        Ok(yes) => tell(Verdict::Passed, usize::from(yes), answer),
        Err(not_label) => tell(Verdict::Refused(not_label), 0, answer),
    }
}
