// The number that a new child's label ends with.
#![tactic(auto)]

ghost use Rattle.std.specs.Prelude.{◌≡◌};
ghost use Rattle.numbers.specs.Answers.{number_answer, number_for};

use labels::Label;

// A number, unless it is over the largest component.
#[tactic(auto, using(crate::proofs::Numbers::number_fits, crate::proofs::Numbers::number_large))]
fn fit(x: usize) -> Option<u16>
    ensures { result ≡ number_answer x }
{
    if x <= Label::MAX_COMPONENT as usize {
        Some(x as u16)
    } else {
        None
    }
}

// The number for a child of place k: the least that is at least next and leaves k when divided by n;
// none where it is over the largest component.
#[tactic(auto, using(crate::proofs::Numbers::number_none, crate::proofs::Numbers::number_far, crate::proofs::Numbers::number_is, crate::proofs::Numbers::number_over, crate::proofs::Numbers::number_low, crate::proofs::Numbers::number_high))]
pub fn next_number(n: usize, k: usize, next: u16) -> Option<u16>
    ensures { result ≡ number_for n k next }
{
    if n <= k {
        return None;
    }
    if (Label::MAX_COMPONENT as usize) < k {
        return None;
    }
    let f = next as usize;
    let r = f % n;
    let base = f - r;
    if r <= k {
        return fit(base + k);
    }
    if (Label::MAX_COMPONENT as usize) < n {
        return None;
    }
    fit(base + n + k)
}
