//! The search for the first leaf that fits.
ghost use Rattle.std.specs.Prelude.{◌≡◌, ℕ, ◌+◌, ◌*◌, ◌^◌, ◌<◌, ◌≤◌, Bool, true, false, IfSome, IfNone, length};
ghost use Rattle.std.specs.Int.{IsPowerOfTwo};
ghost use Rattle.least_tree.specs.Amounts.{fits_at};
ghost use Rattle.number_set.specs.Next.{IsLeast, IsNext};
ghost use Rattle.least_tree.specs.Nodes.{IsMended, IsFront};

use crate::node::fits;

// The first node that fits, of nodes side by side that stand over all leaves from the given one on, with the number of leaves
// under it. Each stands over as many as it can.
fn climb(nodes: &[Option<u64>], leaf: usize, most: u64) -> Option<(usize, usize)>
    requires mended { IsMended nodes.now }
    requires small { length nodes.now ≤ 2 ^ 35 }
    requires from { 0 < leaf }
    requires to { leaf < length nodes.now }
    ensures none { IfNone result ((k : ℕ) → leaf ≤ k → fits_at nodes.now most k ≡ false) }
    ensures front { IfSome result (λ found. IsFront nodes.now leaf most found.0 found.1) }
    ensures fits { IfSome result (λ found. fits_at nodes.now most found.0 ≡ true) }
{
    let mut at = leaf;
    let mut width = 1;
    while !fits(nodes[at], most) {
        at += 1;
        if at * width >= nodes.len() {
            return None;
        }
        if at % 2 == 0 {
            at /= 2;
            width *= 2;
        }
    }
    Some((at, width))
}

// The first leaf that fits of those under a node that fits.
fn descend(nodes: &[Option<u64>], node: usize, leaves: usize, most: u64) -> usize
    requires mended { IsMended nodes.now }
    requires small { length nodes.now ≤ 2 ^ 35 }
    requires power { IsPowerOfTwo (length nodes.now) }
    requires leaves { IsPowerOfTwo leaves }
    requires from { 0 < node }
    requires to { node * leaves < length nodes.now }
    requires fits { fits_at nodes.now most node ≡ true }
    ensures { IsLeast (fits_at nodes.now most) (node * leaves) result }
{
    let mut at = node;
    let mut width = leaves;
    while width > 1 {
        at *= 2;
        width /= 2;
        if !fits(nodes[at], most) {
            at += 1;
        }
    }
    at
}

// The first leaf that fits, of those from the given one on.
pub(crate) fn first(nodes: &[Option<u64>], leaf: usize, most: u64) -> Option<usize>
    requires mended { IsMended nodes.now }
    requires small { length nodes.now ≤ 2 ^ 35 }
    requires power { IsPowerOfTwo (length nodes.now) }
    requires from { 0 < leaf }
    requires to { leaf < length nodes.now }
    ensures { IsNext (fits_at nodes.now most) leaf result }
{
    match climb(nodes, leaf, most) {
        Some((node, leaves)) => Some(descend(nodes, node, leaves, most)),
        None => None,
    }
}
