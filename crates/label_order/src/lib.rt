// Label order: the part that two labels share, and which of them comes first.
#![tactic(auto)]

ghost use Rattle.std.specs.Prelude.{◌≡◌, ◌+◌, ◌≤◌, length, drop};
ghost use Rattle.labelling.specs.Labels as spec;

// How many leading components two labels share, the first `from` of them known.
#[tactic(auto, using(crate::proofs::Steps::shared_short, crate::proofs::Steps::shared_differ, crate::proofs::Steps::shared_on, crate::proofs::Steps::shared_end, labelling::proofs::Kinship::shared_low, labelling::proofs::Kinship::shared_comm))]
pub fn shared_from(a: &[u16], b: &[u16], from: usize) -> usize
    requires { (from ≤ length a.now) × (spec.shared a.now b.now ≡ from + spec.shared (drop from a.now) (drop from b.now)) }
    ensures { result ≡ spec.shared a.now b.now }
{
    let both = a.len().min(b.len());
    for i in from..both {
        if a[i] != b[i] {
            return i;
        }
    }
    both
}

// How many leading components two labels share.
pub fn shared(a: &[u16], b: &[u16]) -> usize
    ensures { result ≡ spec.shared a.now b.now }
{
    shared_from(a, b, 0)
}

// Label order: the first label comes before the second.
#[tactic(auto, using(crate::proofs::Steps::before_decided, crate::proofs::Steps::before_on, crate::proofs::Steps::before_end, crate::proofs::Steps::before_prefix))]
pub fn before(a: &[u16], b: &[u16]) -> bool
    ensures { result ≡ spec.before a.now b.now }
{
    // A loop of its own: `a < b` takes half as long again.
    for i in 0..a.len().min(b.len()) {
        let (x, y) = (a[i], b[i]);
        if x != y {
            return x < y;
        }
    }
    a.len() < b.len()
}

// Label order, by the part that two labels share.
#[tactic(auto, using(crate::proofs::Order::order_none, crate::proofs::Order::order_prefix, crate::proofs::Order::order_decided))]
pub fn ordered(l: &[u16], m: &[u16], s: usize) -> bool
    requires { s ≡ spec.shared l.now m.now }
    ensures { result ≡ spec.before l.now m.now }
{
    if m.len() <= s {
        return false;
    }
    if l.len() <= s {
        return true;
    }
    l[s] < m[s]
}
