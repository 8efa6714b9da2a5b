// One label of a stream, read behind the label before it: of its names only those that changed are decoded.
#![tactic(auto)]

ghost use Rattle.std.specs.Prelude.{◌≡◌, true, ◌||◌, ◌+◌, ◌*◌, ◌≤◌, length, get_or, take, eqb};
ghost use Rattle.basics.specs.Limits.{label_size, max_depth};
ghost use Rattle.naming.specs.Names.{clues_of};
ghost use Rattle.labelling.specs.Labels as spec;
ghost use Rattle.clue_lengths.specs.Lengths.{lengths_of};
ghost use Rattle.label_words.specs.Words as layout;
ghost use Rattle.match_label_decoding.specs.Streams.{Along, leads_on, words_at, label_at, label_before, label_stands, Stood};
ghost use Rattle.match_label_decoding.specs.Answers.{link_of};

use clue_lengths::length_of;
use clues::child_among;
use label_order::ordered;
use label_words::{laid_out, shared_part};
use labels::{Label, components};
use names::Table;
use twigs::asks;

// The words of label i of a stream.
#[tactic(auto, using(crate::proofs::Words::words_are, crate::proofs::Words::words_sixteen))]
fn words_at(stream: &[u16], i: usize) -> &[u16]
    requires { i * label_size + label_size ≤ length stream.now }
    ensures { (result.now ≡ words_at i stream.now) × (length result.now ≡ label_size) }
{
    let at = i * Label::WORDS;
    &stream[at..at + Label::WORDS]
}

// The label before label i of a stream, the root's for the first.
#[tactic(auto, using(crate::proofs::Words::before_first, crate::proofs::Words::before_label, crate::proofs::Words::before_other))]
fn label_before(stream: &[u16], i: usize) -> &[u16]
    requires { (i * label_size + label_size ≤ length stream.now) × Stood i stream.now }
    ensures { result.now ≡ label_before i stream.now }
{
    if i == 0 {
        return &stream[..0];
    }
    components(words_at(stream, i - 1))
}

// Names along the first s components of a label are led on along the others; false where a clue is empty.
#[tactic(auto, using(crate::proofs::Leading::lead_stuck, crate::proofs::Leading::lead_end, crate::proofs::Leading::lead_along, clue_lengths::proofs::Lengths::length_is, crate::proofs::Leading::lead_next))]
fn lead_on(table: &Table, lengths: &[usize], label: &[u16], s: usize, names: &mut [u8]) -> bool
    requires { (lengths.now ≡ lengths_of table.now) × (s ≤ length label.now) × (length label.now ≤ max_depth) × (length names.old ≡ label_size) × Along (clues_of table.now) (get_or names.old 0 0) (take s label.now) names.old }
    ensures value { result ≡ leads_on (spec.decode (clues_of table.now) (get_or names.old 0 0) label.now) }
    ensures names_len { length names.new ≡ label_size }
    ensures along { result ≡ true → Along (clues_of table.now) (get_or names.old 0 0) label.now names.new }
{
    for j in s..label.len() {
        let parent = names[j] as usize;
        let Some(child) = child_among(table, parent, length_of(lengths, parent), label[j]) else {
            return false;
        };
        names[j + 1] = child;
    }
    true
}

// Label i may stand behind the one before it, with which it shares s components.
#[tactic(auto, using(crate::proofs::Words::later_first, crate::proofs::Words::later_other))]
fn is_later(i: usize, previous: &[u16], label: &[u16], s: usize) -> bool
    requires { s ≡ spec.shared previous.now label.now }
    ensures { result ≡ (eqb i 0 || spec.before previous.now label.now) }
{
    i == 0 || ordered(previous, label, s)
}

// Label i of a stream, read behind the label before it: how many components the two share, none where it may not stand
// there. `names` holds the names along the label before, and then those along label i.
#[tactic(auto, using(crate::proofs::Links::link_label, crate::proofs::Links::link_later, crate::proofs::Links::share_in, crate::proofs::Links::share_along, crate::proofs::Links::link_stuck, crate::proofs::Links::link_read, crate::proofs::Links::link_stands, crate::proofs::Links::link_along, labels::proofs::Steps::known_label))]
pub fn read_label(
    table: &Table,
    lengths: &[usize],
    largest: &[u16; 32],
    want: u8,
    stream: &[u16],
    i: usize,
    names: &mut [u8],
) -> Option<usize>
    requires { (largest.now ≡ layout.largest_words) × (lengths.now ≡ lengths_of table.now) × (i * label_size + label_size ≤ length stream.now) × (length names.old ≡ label_size) × Stood i stream.now × Along (clues_of table.now) (get_or names.old 0 0) (label_before i stream.now) names.old }
    ensures value { result ≡ link_of (label_stands (clues_of table.now) (get_or names.old 0 0) want i stream.now) (spec.shared (label_before i stream.now) (label_at i stream.now)) }
    ensures names_len { length names.new ≡ label_size }
    ensures along { label_stands (clues_of table.now) (get_or names.old 0 0) want i stream.now ≡ true → Along (clues_of table.now) (get_or names.old 0 0) (label_at i stream.now) names.new }
{
    let words = words_at(stream, i);
    if !laid_out(largest, words) {
        return None;
    }
    let label = components(words);
    let previous = label_before(stream, i);
    let s = shared_part(previous, label);
    if !is_later(i, previous, label, s) {
        return None;
    }
    if !lead_on(table, lengths, label, s, names) {
        return None;
    }
    asks(want, names[label.len()] as u16).then_some(s)
}
