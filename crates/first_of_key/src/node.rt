//! The nodes of trees in a list, one for each key that was entered, in that order, and the heads that lead to their first nodes.
ghost use Rattle.std.specs.Prelude.{◌≡◌, vec_len, vec_capacity};
ghost use Rattle.first_of_key.specs.Paths.{link, linked, leaf, heads_with, nodes_with, IsWithin, number_of};

use crate::Key;

// No node. There are never so many.
pub(crate) const NONE: u32 = u32::MAX;

// A key with the numbers of the nodes below it on two sides.
#[derive(Clone, Copy)]
pub(crate) struct Node {
    pub(crate) key: Key,
    pub(crate) zero: u32,
    pub(crate) one: u32,
}

// Where a search ends: at a head that leads nowhere; at a node with the key; or at a node that has another key and leads
// nowhere on the side on which the search would go on.
#[derive(Clone, Copy)]
pub(crate) enum Place {
    Head(usize),
    Taken(u32),
    Free(u32, bool),
}

// A node that leads nowhere.
pub(crate) fn leaf(key: Key) -> Node
    ensures { result ≡ leaf key }
{
    Node {
        key,
        zero: NONE,
        one: NONE,
    }
}

// Where a node leads to on a side.
pub(crate) fn link(node: Node, one: bool) -> u32
    ensures { result ≡ link one node }
{
    if one { node.one } else { node.zero }
}

fn linked(node: Node, one: bool, to: u32) -> Node
    ensures { result ≡ linked one node to }
{
    if one {
        Node {
            key: node.key,
            zero: node.zero,
            one: to,
        }
    } else {
        Node {
            key: node.key,
            zero: to,
            one: node.one,
        }
    }
}

// At the place where a search ended, lets the head or the node lead to another node.
pub(crate) fn hang(heads: &mut [u32], nodes: &mut Vec<Node>, place: Place, to: u32)
    requires { IsWithin heads.old nodes.old.items place }
    ensures heads { heads.new ≡ heads_with heads.old place to }
    ensures nodes { nodes.new.items ≡ nodes_with nodes.old.items place to }
    ensures len { vec_len nodes.new ≡ vec_len nodes.old }
    ensures capacity { vec_capacity nodes.new ≡ vec_capacity nodes.old }
{
    match place {
        Place::Head(at) => heads[at] = to,
        Place::Taken(_) => {}
        Place::Free(at, one) => {
            let node = nodes[at as usize];
            nodes[at as usize] = linked(node, one, to);
        }
    }
}

// The number of the node with the key, where the search found one.
pub(crate) fn number(place: Place) -> Option<u32>
    ensures { result ≡ number_of place }
{
    match place {
        Place::Taken(at) => Some(at),
        _ => None,
    }
}
