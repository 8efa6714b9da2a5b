// Labels as they lie in sixteen words, tested and compared with no way
// out between the words, so that the compiler takes several at once.
#![tactic(auto)]

ghost use Rattle.std.specs.Prelude.{◌≡◌, ◌+◌, ◌<◌, ◌≤◌, length, take, drop, T, eqb};
ghost use Rattle.basics.specs.Basics.{all};
ghost use Rattle.basics.specs.Limits.{max_depth, label_size};
ghost use Rattle.labelling.specs.Labels as spec;
ghost use Rattle.label_words.specs.Words as layout;
ghost use Rattle.label_words.specs.Fours.{is_word, joined_words};

use label_order::shared_from;
use labels::Label;

// The largest that each word of a label may be, from place 15 - depth on:
// 65,534 for a used component, 0 for an unused one.
pub const LARGEST: [u16; 32] = [
    Label::MAX_COMPONENT,
    Label::MAX_COMPONENT,
    Label::MAX_COMPONENT,
    Label::MAX_COMPONENT,
    Label::MAX_COMPONENT,
    Label::MAX_COMPONENT,
    Label::MAX_COMPONENT,
    Label::MAX_COMPONENT,
    Label::MAX_COMPONENT,
    Label::MAX_COMPONENT,
    Label::MAX_COMPONENT,
    Label::MAX_COMPONENT,
    Label::MAX_COMPONENT,
    Label::MAX_COMPONENT,
    Label::MAX_COMPONENT,
    Label::MAX_COMPONENT,
    0,
    0,
    0,
    0,
    0,
    0,
    0,
    0,
    0,
    0,
    0,
    0,
    0,
    0,
    0,
    0,
];

// 0 where word w of a label fits its depth, 1 where it is too large.
#[tactic(auto, using(crate::proofs::Words::word_over, crate::proofs::Words::word_within))]
fn misfit(largest: &[u16; 32], depth: usize, w: usize, word: u16) -> u16
    requires { (largest.now ≡ layout.largest_words) × (depth ≤ max_depth) × (w < label_size) }
    ensures { eqb result 0 ≡ layout.word_fits depth w word }
{
    if largest[w + Label::MAX_DEPTH - depth] < word {
        1
    } else {
        0
    }
}

// Sixteen words are a label. The depth is lessened to 15 first, so that nothing is decided before all words are read.
#[tactic(auto, using(crate::proofs::Words::words_start, crate::proofs::Fits::all_on, crate::proofs::Fits::all_deep, crate::proofs::Fits::all_misfit))]
pub fn laid_out(largest: &[u16; 32], words: &[u16]) -> bool
    requires { (largest.now ≡ layout.largest_words) × (length words.now ≡ label_size) }
    ensures { result ≡ spec.is_label words.now }
{
    let depth = words[0] as usize;
    let bounded = depth.min(Label::MAX_DEPTH);
    let mut any: u16 = 0;
    for w in 0..Label::WORDS {
        any |= misfit(largest, bounded, w, words[w]);
    }
    any == 0 && depth == bounded
}

// How many components are compared together.
const FOUR: usize = 4;
// How many bits a word has.
const WORD_BITS: u32 = 16;
// How many numbers fit a word.
const WORD: u64 = 65536;

// Four words from place i on as one number, the first of them lowest.
#[tactic(auto, using(crate::proofs::Fours::four_joined, crate::proofs::Fours::four_small))]
fn four(s: &[u16], i: usize) -> u64
    requires { i + 4 ≤ length s.now }
    ensures { (result ≡ joined_words (take 4 (drop i s.now))) × T (all is_word (take 4 (drop i s.now))) }
{
    let high = u64::from(s[i + 3]) * WORD + u64::from(s[i + 2]);
    let low = u64::from(s[i + 1]) * WORD + u64::from(s[i]);
    high * WORD * WORD + low
}

// How many leading components two labels share of the four from place i on:
// as many as whole words stand below the first bit that differs.
#[tactic(auto, using(crate::proofs::Fours::change_small, crate::proofs::Fours::four_change))]
fn four_shared(a: &[u16], b: &[u16], i: usize) -> usize
    requires { (i + 4 ≤ length a.now) × (i + 4 ≤ length b.now) }
    ensures { result ≡ spec.shared (take 4 (drop i a.now)) (take 4 (drop i b.now)) }
{
    let same = (four(a, i) ^ four(b, i)).trailing_zeros();
    (same / WORD_BITS) as usize
}

// How many leading components two labels share: four at a time, then the rest.
// Of short parts `label_order::shared` tells it sooner.
#[tactic(auto, using(crate::proofs::Fours::four_parts, crate::proofs::Fours::four_on), unfolding(labelling::specs::Labels::shared))]
pub fn shared_part(a: &[u16], b: &[u16]) -> usize
    ensures { result ≡ spec.shared a.now b.now }
{
    let n = a.len().min(b.len());
    let mut i: usize = 0;
    // A walk by fours, which goes on while both labels have four more.
    while FOUR <= n - i {
        let s = four_shared(a, b, i);
        if s < FOUR {
            return i + s;
        }
        i += FOUR;
    }
    shared_from(a, b, i)
}
