// Decoding: the names from the root that a label leads to.
#![tactic(auto)]

ghost use Rattle.std.specs.Prelude.{◌≡◌, ◌≤◌, length};
ghost use Rattle.naming.specs.Names.{clues_of};
ghost use Rattle.labelling.specs.Labels as spec;
ghost use Rattle.decoding.specs.Answers.{decoding_refused, decoded_by, decoding_of};

use clues::child_of;
use labels::{components, is_label};
use names::{MAX_NAME, Table};
use refusals::{Refusal, Verdict, refuse};
use table_checks::table_verdict;

// What decoding answers: the depth + 1 names from the root, the rest of sixteen places 0.
#[derive(Drop)]
pub struct Decoding {
    pub verdict: Verdict,
    pub names: [u8; 16],
}

// The answer of a refused call: no names, all zeros.
fn refused(verdict: Verdict) -> Decoding
    ensures { result ≡ decoding_refused verdict }
{
    Decoding {
        verdict,
        names: [0u8; 16],
    }
}

// The names along components, from a root name on.
#[tactic(auto, using(crate::proofs::Steps::walk_on))]
fn walk(table: &Table, root: u8, parts: &[u16]) -> Decoding
    requires { length parts.now ≤ 15 }
    ensures { result ≡ decoded_by (spec.decode (clues_of table.now) root parts.now) }
{
    let mut names = [0u8; 16];
    names[0] = root;
    let mut parent = root;
    for (i, component) in parts.iter().enumerate() {
        let Some(child) = child_of(table, parent as usize, *component) else {
            return refused(refuse(Refusal::EMPTY_CLUE, i + 1));
        };
        parent = child;
        names[i + 1] = child;
    }
    Decoding {
        verdict: Verdict::Passed,
        names,
    }
}

// Decoding: 22, 21, 15, 16.
#[tactic(auto, using(crate::proofs::Answers::high_root, crate::proofs::Answers::no_label, labels::proofs::Steps::known_label, crate::proofs::Answers::label_decoded))]
pub fn decode(table: Table, root: u8, label: &[u16]) -> Decoding
    ensures { result ≡ decoding_of (spec.decode_call table root label.now) }
{
    if let Verdict::Refused(refusal) = table_verdict(&table) {
        return refused(Verdict::Refused(refusal));
    }
    if MAX_NAME < root {
        return refused(refuse(Refusal::BAD_ROOT, 0));
    }
    if !is_label(label) {
        return refused(refuse(Refusal::NOT_LABEL, 0));
    }
    walk(&table, root, components(label))
}
