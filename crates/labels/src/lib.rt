// Labels: sixteen words, the depth first, then the components, unused ones 0.
#![tactic(auto)]

ghost use Rattle.std.specs.Prelude.{◌≡◌, true, ◌≤◌, ◌<◌, [], length, take, drop};
ghost use Rattle.basics.specs.Basics.{all};
ghost use Rattle.labelling.specs.Labels as spec;

use zeros::all_zero;

// A label that stands outside a store.
#[derive(Drop)]
pub struct Label {
    pub words: [u16; 16],
}

impl Label {
    // How many words a label has.
    pub const WORDS: usize = 16;
    // The deepest level.
    pub const MAX_DEPTH: usize = 15;
    // The largest component.
    pub const MAX_COMPONENT: u16 = 65534;

    // The root's label.
    #[tactic(auto, unfolding(labelling::specs::Labels::label_words))]
    pub fn empty() -> Label
        ensures { result.words ≡ spec.label_words [] }
    {
        Label { words: [0u16; 16] }
    }
}

// Whether every word is a component.
fn all_components(s: &[u16]) -> bool
    ensures { result ≡ all spec.is_component s.now }
{
    s.iter().all(|word| *word <= Label::MAX_COMPONENT)
}

// The d words after the first.
fn after_first(words: &[u16], d: usize) -> &[u16]
    requires { d < length words.now }
    ensures { result.now ≡ take d (drop 1 words.now) }
{
    &words[1..d + 1]
}

// Whether words are a label.
#[tactic(auto, unfolding(labelling::specs::Labels::is_label, labelling::specs::Labels::label_of))]
pub fn is_label(words: &[u16]) -> bool
    ensures { result ≡ spec.is_label words.now }
{
    if words.len() != Label::WORDS {
        return false;
    }
    let d = words[0] as usize;
    if Label::MAX_DEPTH < d {
        return false;
    }
    if !all_components(after_first(words, d)) {
        return false;
    }
    all_zero(&words[d + 1..])
}

// The components of a label.
#[tactic(auto, using(crate::proofs::Steps::label_first, crate::proofs::Steps::label_within, crate::proofs::Steps::label_short), unfolding(labelling::specs::Labels::label_of))]
pub fn components(words: &[u16]) -> &[u16]
    requires { spec.is_label words.now ≡ true }
    ensures { (result.now ≡ spec.label_of words.now) × (length result.now ≤ 15) }
{
    after_first(words, words[0] as usize)
}
