//! The nodes of all lists, one for each amount that was pushed, in that order, in three lists.
ghost use Rattle.std.specs.Prelude.{◌≡◌, ◌<◌, true, length};
ghost use Rattle.least_tree.specs.Amounts.{amount_at, fits, least};
ghost use Rattle.amount_forest.specs.Nodes.{IsLinked, amount_of, link_at, start_of, place_of, second_of, least_for};

// No node. There are never so many.
pub(crate) const NONE: u32 = u32::MAX;

// An amount of a list, and the number that came with it.
#[derive(Clone, Copy)]
pub(crate) struct Entry {
    pub(crate) list: u32,
    pub(crate) number: u32,
    pub(crate) amount: Option<u64>,
}

// A node stands over the places of its list from `start` to its own. Where these are more than one, they are its own place and
// those of two other nodes: the one at the place before its own, and the one at the place before that node's start.
#[derive(Clone, Copy)]
pub(crate) struct Link {
    pub(crate) place: u32,
    pub(crate) start: u32,
    // The node at the place before its own, if there is one.
    pub(crate) prev: u32,
    // The node at the place before its start, if there is one.
    pub(crate) jump: u32,
    // The node that it is one of two nodes of, or none.
    pub(crate) up: u32,
}

// Whether the amount is there and at most this much.
pub(crate) fn fits(amount: Option<u64>, most: u64) -> bool
    ensures { result ≡ fits most amount }
{
    amount.is_some_and(|amount| amount <= most)
}

// Whether both are there and the same, or neither is there.
pub(crate) fn is_same(a: Option<u64>, b: Option<u64>) -> bool
    ensures { result ≡ true → a ≡ b }
{
    match (a, b) {
        (Some(a), Some(b)) => a == b,
        (None, None) => true,
        _ => false,
    }
}

// The less of two amounts, where both are there.
pub(crate) fn least(a: Option<u64>, b: Option<u64>) -> Option<u64>
    ensures { result ≡ least a b }
{
    match (a, b) {
        (Some(a), Some(b)) => Some(a.min(b)),
        (Some(a), None) => Some(a),
        (None, other) => other,
    }
}

// The second node of a node that has two.
pub(crate) fn second(links: &[Link], at: u32) -> u32
    requires within { at < length links.now }
    requires first { (link_at links.now at).prev < length links.now }
    ensures { result ≡ second_of links.now at }
{
    let prev = links[at as usize].prev;
    links[prev as usize].jump
}

// The least amount of those that a node stands over, by those of the nodes under it.
pub(crate) fn least_for(
    entries: &[Entry],
    links: &[Link],
    leasts: &[Option<u64>],
    at: u32,
) -> Option<u64>
    requires linked { IsLinked entries.now links.now }
    requires within { at < length entries.now }
    requires leasts { length leasts.now ≡ length entries.now }
    ensures { result ≡ least_for entries.now links.now leasts.now at }
{
    let own = entries[at as usize].amount;
    let link = links[at as usize];
    if link.start == link.place {
        return own;
    }
    let second = second(links, at);
    least(
        own,
        least(leasts[link.prev as usize], leasts[second as usize]),
    )
}
