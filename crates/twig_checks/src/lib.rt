// The check of a twig: its length, then each node's parent, edge, name and last byte.
#![tactic(auto)]

ghost use Rattle.std.specs.Prelude.{◌≡◌, ◌&&◌, ◌||◌, ◌+◌, ◌*◌, ◌%◌, ◌≤◌, length, eqb, leb, ltb};
ghost use Rattle.basics.specs.Limits.{max_twig, node_size};
ghost use Rattle.patterns.specs.Twigs as spec;
ghost use Rattle.refusals.specs.Answers.{verdict_of};
ghost use Rattle.twig_checks.specs.Answers.{node_check_at};

use refusals::{Refusal, Verdict, refuse};
use twigs::{Node, is_asked, node_at, node_count};

// Whether bytes of this length are a twig's: at least one node, at most eight, and nothing besides.
#[tactic(auto, using(crate::proofs::Checks::length_none, crate::proofs::Checks::length_long, crate::proofs::Checks::length_fours))]
fn is_length(bytes: usize) -> bool
    ensures { result ≡ (ltb 0 bytes && leb bytes max_twig && eqb (bytes % node_size) 0) }
{
    if bytes == 0 {
        return false;
    }
    if Node::MAX_NODES * Node::BYTES < bytes {
        return false;
    }
    bytes % Node::BYTES == 0
}

// Whether a parent's number fits: node 0 has 255, another node a number below its own.
#[tactic(auto, using(crate::proofs::Checks::fits_root, crate::proofs::Checks::fits_later))]
fn parent_fits(q: usize, parent: u8) -> bool
    ensures { result ≡ spec.parent_fits q parent }
{
    if q == 0 {
        return parent == Node::NO_PARENT;
    }
    (parent as usize) < q
}

// Whether a number is an edge: to a child or to a descendant.
#[tactic(auto, using(crate::proofs::Checks::edge_child, crate::proofs::Checks::edge_other))]
fn is_edge(edge: u8) -> bool
    ensures { result ≡ (eqb edge spec.child_edge || eqb edge spec.descendant_edge) }
{
    edge == Node::CHILD || edge == Node::DESCENDANT
}

// The check of node q: 5 to 8.
#[tactic(auto, using(crate::proofs::Checks::parent_refused, crate::proofs::Checks::edge_refused, crate::proofs::Checks::name_refused, crate::proofs::Checks::end_refused, crate::proofs::Checks::node_passed))]
fn check_node(twig: &[u8], q: usize) -> Verdict
    requires { q * 4 + 4 ≤ length twig.now }
    ensures { result ≡ verdict_of (node_check_at twig.now q) }
{
    let node = node_at(twig, q);
    if !parent_fits(q, node.parent) {
        return refuse(Refusal::TWIG_PARENT, q);
    }
    if !is_edge(node.edge) {
        return refuse(Refusal::TWIG_EDGE, q);
    }
    if !is_asked(node.name) {
        return refuse(Refusal::NAME_ASKED, q);
    }
    if twig[q * Node::BYTES + Node::END] != 0 {
        return refuse(Refusal::TWIG_END, q);
    }
    Verdict::Passed
}

// The check of a twig, its length and then node by node: 4 to 8.
#[tactic(auto, using(crate::proofs::Checks::length_refused, crate::proofs::Checks::node_refused, crate::proofs::Checks::checked_on, crate::proofs::Checks::twig_passed))]
pub fn check_twig(twig: &[u8]) -> Verdict
    ensures { result ≡ verdict_of (spec.twig_check twig.now) }
{
    if !is_length(twig.len()) {
        return refuse(Refusal::TWIG_LENGTH, 0);
    }
    for q in 0..node_count(twig) {
        let checked = check_node(twig, q);
        let Verdict::Passed = checked else {
            return checked;
        };
    }
    Verdict::Passed
}
