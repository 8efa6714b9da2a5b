// The check of a label, for the calls that refuse words that are no label.
#![tactic(auto)]

ghost use Rattle.std.specs.Prelude.{◌≡◌};
ghost use Rattle.labelling.specs.Labels as spec;
ghost use Rattle.refusals.specs.Answers.{verdict_of};

use labels::is_label;
use refusals::{Refusal, Verdict, refuse};

// The check of a label: 15.
pub fn check_label(words: &[u16]) -> Verdict
    ensures { result ≡ verdict_of (spec.label_check words.now) }
{
    if is_label(words) {
        Verdict::Passed
    } else {
        refuse(Refusal::NOT_LABEL, 0)
    }
}
