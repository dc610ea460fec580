//! The search for a key.
ghost use Rattle.std.specs.Prelude.{◌≡◌, ◌<◌, ◌≤◌, length};
ghost use Rattle.first_of_key.specs.declared.node.TheConstants.{NONE};
ghost use Rattle.first_of_key.specs.Paths.{tree, IsSearchable, IsEnd};
ghost use Rattle.first_of_key.specs.Sides.{IsWhole};

use crate::Key;
use crate::key::{head, is_same, mixed, side};
use crate::node::{NONE, Node, Place, link};

// The most steps of a search: one for each bit of the mixed word and of the six words of a key.
const MOST_STEPS: u32 = 448;

// Where the search for a key ends.
pub(crate) fn end(heads: &[u32], nodes: &[Node], key: Key) -> Place
    requires searchable { IsSearchable (tree heads.now nodes.now) }
    requires whole { IsWhole key }
    requires small { length nodes.now ≤ NONE }
    ensures { IsEnd (tree heads.now nodes.now) key result }
{
    let mix = mixed(key);
    let head = head(key, mix, heads.len());
    let mut at = heads[head];
    if at == NONE {
        return Place::Head(head);
    }
    for depth in 0..MOST_STEPS {
        let node = nodes[at as usize];
        if is_same(node.key, key) {
            return Place::Taken(at);
        }
        let one = side(key, mix, depth);
        let next = link(node, one);
        if next == NONE {
            return Place::Free(at, one);
        }
        at = next;
    }
    // The key of this node takes the same side at each of so many steps, so it is the same.
    Place::Taken(at)
}
