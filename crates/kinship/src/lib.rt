// Two labels against each other: the kinship of the first to the second, and whether the first follows the second.
#![tactic(auto)]

ghost use Rattle.std.specs.Prelude.{◌≡◌, ◌&&◌, ◌≤◌, length};
ghost use Rattle.labelling.specs.Labels as spec;
ghost use Rattle.kinship.specs.Answers.{relation_number, kinship_reply, follows_of};

use label_order::{before, shared};
use labels::{components, is_label};
use refusals::Refusal;

// How a first label is kin to a second. A host program is told it by its number.
#[derive(Clone, Copy, PartialEq, Eq, Debug)]
pub enum Relation {
    // The labels are equal.
    Same = 0,
    // The first is the parent of the second.
    Parent = 1,
    // The first is an ancestor of the second above its parent.
    HigherAncestor = 2,
    // The first is a child of the second.
    Child = 3,
    // The first is a descendant of the second below its children.
    DeeperDescendant = 4,
    // Neither is an ancestor of the other.
    Unrelated = 5,
}

impl Relation {
    // The number by which a host program is told of a relation.
    pub fn number(self) -> u8
        ensures { result ≡ relation_number self }
    {
        self as u8
    }
}

// Kinship of components to components, by the part that they share.
#[tactic(auto, using(crate::proofs::Steps::kin_same, crate::proofs::Steps::kin_parent, crate::proofs::Steps::kin_above, crate::proofs::Steps::kin_child, crate::proofs::Steps::kin_below, crate::proofs::Steps::kin_none))]
fn kin(l: &[u16], m: &[u16]) -> Relation
    requires { (length l.now ≤ 15) × (length m.now ≤ 15) }
    ensures { relation_number result ≡ spec.kinship l.now m.now }
{
    let s = shared(l, m);
    let p = l.len();
    let q = m.len();
    if s == p {
        if s == q {
            return Relation::Same;
        }
        if q == p + 1 {
            return Relation::Parent;
        }
        return Relation::HigherAncestor;
    }
    if s == q {
        if p == q + 1 {
            return Relation::Child;
        }
        return Relation::DeeperDescendant;
    }
    Relation::Unrelated
}

// Whether two lists of words are both labels.
#[tactic(auto, using(crate::proofs::Steps::both_rest, crate::proofs::Steps::both_not))]
fn both_labels(a: &[u16], b: &[u16]) -> bool
    ensures { result ≡ (spec.is_label a.now && spec.is_label b.now) }
{
    is_label(a) && is_label(b)
}

// The refusal by 15 of words that are no label.
fn not_label() -> Refusal
    ensures { (result.number ≡ 15) × (result.place ≡ 0) }
{
    Refusal {
        number: Refusal::NOT_LABEL,
        place: 0,
    }
}

// Kinship of a first label to a second.
#[tactic(auto, using(crate::proofs::Steps::first_label, crate::proofs::Steps::second_label, crate::proofs::Steps::kinship_answers))]
pub fn kinship(a: &[u16], b: &[u16]) -> Result<Relation, Refusal>
    ensures { kinship_reply result ≡ spec.kinship_call a.now b.now }
{
    if !both_labels(a, b) {
        return Err(not_label());
    }
    let l = components(a);
    let m = components(b);
    Ok(kin(l, m))
}

// Whether a first label follows a second.
#[tactic(auto, using(crate::proofs::Steps::first_label, crate::proofs::Steps::second_label, crate::proofs::Steps::follows_answers))]
pub fn follows(a: &[u16], b: &[u16]) -> Result<bool, Refusal>
    ensures { result ≡ follows_of (spec.follows_call a.now b.now) }
{
    if !both_labels(a, b) {
        return Err(not_label());
    }
    let l = components(a);
    let m = components(b);
    Ok(before(m, l))
}
