//! The node of a place, and the search for the first place that fits.
ghost use Rattle.std.specs.Prelude.{◌≡◌, ◌+◌, ◌<◌, ◌≤◌, length, true};
ghost use Rattle.std.specs.List.Sorted.{IsStrictlyIncreasing};
ghost use Rattle.least_tree.specs.Amounts.{amount_at, fits, fits_at};
ghost use Rattle.number_set.specs.Next.{IsLeast, IsNext};
ghost use Rattle.amount_forest.specs.declared.node.TheConstants.{NONE};
ghost use Rattle.amount_forest.specs.Lists.{amounts_of, numbers_of};
ghost use Rattle.amount_forest.specs.Nodes.{IsLinked, IsPool, IsEnd, link_at, list_of, number_of, place_of, start_of};
ghost use Rattle.amount_forest.specs.Places.{IsEarlier, IsPlace};
ghost use Rattle.amount_forest.specs.Searches.{LeadsOn, reach, before};

use crate::node::{Entry, Link, fits, second};

// Where the first place that fits is known to be: it is this place, or one that this node stands over.
#[derive(Clone, Copy)]
pub(crate) enum Turn {
    Nowhere,
    At(u32),
    Under(u32),
}

// The node of a place, from one of the same list at this place or after it.
pub(crate) fn find(entries: &[Entry], links: &[Link], node: u32, place: u32) -> u32
    requires linked { IsLinked entries.now links.now }
    requires within { node < length entries.now }
    requires behind { place ≤ place_of links.now node }
    ensures within { result < length entries.now }
    ensures list { list_of entries.now result ≡ list_of entries.now node }
    ensures place { place_of links.now result ≡ place }
{
    let mut at = node;
    while links[at as usize].place != place {
        let link = links[at as usize];
        if link.start > place {
            at = link.jump;
        } else {
            at = link.prev;
        }
    }
    at
}

// The same, where this may be the node that is looked for.
pub(crate) fn find_by(entries: &[Entry], links: &[Link], node: u32, place: u32, hint: u32) -> u32
    requires linked { IsLinked entries.now links.now }
    requires within { node < length entries.now }
    requires behind { place ≤ place_of links.now node }
    ensures within { result < length entries.now }
    ensures list { list_of entries.now result ≡ list_of entries.now node }
    ensures place { place_of links.now result ≡ place }
{
    if hint as usize >= entries.len() {
        return find(entries, links, node, place);
    }
    if entries[hint as usize].list != entries[node as usize].list {
        return find(entries, links, node, place);
    }
    if links[hint as usize].place != place {
        return find(entries, links, node, place);
    }
    hint
}

// The node with which a search for a number goes on: one at an earlier place whose number is no less, or none where the one at the
// place before is less.
fn earlier(entries: &[Entry], links: &[Link], at: u32, number: u32) -> Option<u32>
    requires linked { IsLinked entries.now links.now }
    requires within { at < length entries.now }
    ensures { IsEarlier entries.now links.now at number result }
{
    let link = links[at as usize];
    if link.place == 0 {
        return None;
    }
    if link.start != 0 {
        if entries[link.jump as usize].number >= number {
            return Some(link.jump);
        }
    }
    if entries[link.prev as usize].number >= number {
        return Some(link.prev);
    }
    None
}

// From a node whose number is no less, the first place of its list whose number is no less, if they rise.
fn first_place(entries: &[Entry], links: &[Link], node: u32, number: u32) -> u32
    requires linked { IsLinked entries.now links.now }
    requires within { node < length entries.now }
    requires no_less { number ≤ number_of entries.now node }
    ensures { IsStrictlyIncreasing (numbers_of (list_of entries.now node) entries.now)
        → IsPlace (numbers_of (list_of entries.now node) entries.now) number result }
{
    let mut at = node;
    while let Some(to) = earlier(entries, links, at, number) {
        at = to;
    }
    links[at as usize].place
}

// The place at which a number stands in a list of rising ones, or would stand.
pub(crate) fn place(entries: &[Entry], links: &[Link], last: u32, number: u32) -> u32
    requires linked { IsLinked entries.now links.now }
    requires last { IsEnd entries.now links.now (list_of entries.now last) last }
    requires small { length entries.now ≤ NONE }
    ensures { IsStrictlyIncreasing (numbers_of (list_of entries.now last) entries.now)
        → IsPlace (numbers_of (list_of entries.now last) entries.now) number result }
{
    if number == 0 {
        return 0;
    }
    if entries[last as usize].number < number {
        return links[last as usize].place + 1;
    }
    first_place(entries, links, last, number)
}

// The first place that fits, of those that a node stands over of which one fits.
fn descend(entries: &[Entry], links: &[Link], leasts: &[Option<u64>], node: u32, most: u64) -> u32
    requires pool { IsPool entries.now links.now leasts.now }
    requires within { node < length entries.now }
    requires fits { fits most (amount_at leasts.now node) ≡ true }
    ensures { IsLeast (fits_at (amounts_of (list_of entries.now node) entries.now) most) (start_of links.now node) result }
{
    let mut at = node;
    while links[at as usize].start < links[at as usize].place {
        let first = links[at as usize].prev;
        let second = second(links, at);
        if fits(leasts[second as usize], most) {
            at = second;
        } else if fits(leasts[first as usize], most) {
            at = first;
        } else {
            return links[at as usize].place;
        }
    }
    links[at as usize].place
}

// How far to the front a node is looked at in a search from a place on: it alone, or all that it stands over.
fn reach(link: Link, from: u32) -> u32
    ensures { result ≡ reach link from }
{
    if link.start < from {
        link.place
    } else {
        link.start
    }
}

// The node at the place before.
fn before(link: Link, from: u32) -> u32
    ensures { result ≡ before link from }
{
    if link.start < from {
        link.prev
    } else {
        link.jump
    }
}

// Where the first place that fits is, from a place on: with one node more, in front of places of which that is known.
fn turn_at(
    entries: &[Entry],
    links: &[Link],
    leasts: &[Option<u64>],
    at: u32,
    from: u32,
    most: u64,
    turn: Turn,
) -> Turn
    requires pool { IsPool entries.now links.now leasts.now }
    requires within { at < length entries.now }
    requires turn { LeadsOn entries.now links.now leasts.now (list_of entries.now at) most (place_of links.now at + 1) turn }
    ensures { LeadsOn entries.now links.now leasts.now (list_of entries.now at) most (reach (link_at links.now at) from)
        result }
{
    let link = links[at as usize];
    if link.start < from {
        if fits(entries[at as usize].amount, most) {
            return Turn::At(link.place);
        }
        return turn;
    }
    if fits(leasts[at as usize], most) {
        return Turn::Under(at);
    }
    turn
}

// Where the first place that fits is, of those from the given one on.
fn turn_from(
    entries: &[Entry],
    links: &[Link],
    leasts: &[Option<u64>],
    last: u32,
    from: u32,
    most: u64,
) -> Turn
    requires pool { IsPool entries.now links.now leasts.now }
    requires last { IsEnd entries.now links.now (list_of entries.now last) last }
    requires from { from ≤ place_of links.now last }
    ensures { LeadsOn entries.now links.now leasts.now (list_of entries.now last) most from result }
{
    let mut at = last;
    let mut turn = turn_at(entries, links, leasts, at, from, most, Turn::Nowhere);
    while reach(links[at as usize], from) != from {
        at = before(links[at as usize], from);
        turn = turn_at(entries, links, leasts, at, from, most, turn);
    }
    turn
}

// The first place that fits, of those from the given one on.
pub(crate) fn first(
    entries: &[Entry],
    links: &[Link],
    leasts: &[Option<u64>],
    last: u32,
    from: u32,
    most: u64,
) -> Option<u32>
    requires pool { IsPool entries.now links.now leasts.now }
    requires last { IsEnd entries.now links.now (list_of entries.now last) last }
    requires from { from ≤ place_of links.now last }
    ensures { IsNext (fits_at (amounts_of (list_of entries.now last) entries.now) most) from result }
{
    match turn_from(entries, links, leasts, last, from, most) {
        Turn::Nowhere => None,
        Turn::At(place) => Some(place),
        Turn::Under(node) => Some(descend(entries, links, leasts, node, most)),
    }
}
