// Whether words are all 0.
#![tactic(auto)]

ghost use Rattle.std.specs.Prelude.{◌≡◌};
ghost use Rattle.basics.specs.Basics.{all};
ghost use Rattle.zeros.specs.Words.{is_zero};

// Every word is 0. The words are gathered with no way out between them, so that the compiler takes several at once.
#[tactic(auto, using(basics::proofs::Scans::zeros_on, basics::proofs::Scans::zeros_end))]
pub fn all_zero(s: &[u16]) -> bool
    ensures { result ≡ all is_zero s.now }
{
    let mut any: u16 = 0;
    for word in s {
        any |= *word;
    }
    any == 0
}
