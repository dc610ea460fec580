//! The node of an amount that is pushed.
ghost use Rattle.std.specs.Prelude.{◌≡◌, ℕ, ◌+◌, ◌<◌, ◌≤◌, IsTrue, [], ◌∷◌, ◌++◌, length, vec_len, vec_capacity};
ghost use Rattle.amount_forest.specs.declared.node.TheConstants.{NONE};
ghost use Rattle.amount_forest.specs.Lists.{amounts_of};
ghost use Rattle.amount_forest.specs.Nodes.{IsLinked, IsPool, IsEnd, IsLast, IsKept, IsNew, link_at, list_of, start_of, raised};

use crate::mending::mend;
use crate::node::{Entry, Link, NONE};

// Says of a node that it is one of the two of another one.
fn raise(links: &mut Vec<Link>, at: u32, up: u32)
    requires { at < length links.old.items }
    ensures items { links.new.items ≡ raised links.old.items at up }
    ensures len { vec_len links.new ≡ vec_len links.old }
    ensures capacity { vec_capacity links.new ≡ vec_capacity links.old }
{
    let link = links[at as usize];
    links[at as usize] = Link {
        place: link.place,
        start: link.start,
        prev: link.prev,
        jump: link.jump,
        up,
    };
}

// Whether the next node of a list gets two others: where the last one, and the one before what that stands over, stand over as
// many places.
fn is_pair(entries: &[Entry], links: &[Link], last: u32) -> bool
    requires linked { IsLinked entries.now links.now }
    requires within { last < length entries.now }
    ensures { IsTrue result → 0 < start_of links.now last }
{
    let first = links[last as usize];
    if first.start == 0 {
        return false;
    }
    let second = links[first.jump as usize];
    first.place - first.start == second.place - second.start
}

// The first node of a list.
fn first_link(entries: &[Entry], links: &[Link], list: u32) -> Link
    requires size { length links.now ≡ length entries.now }
    requires empty { length (amounts_of list entries.now) ≡ 0 }
    ensures { IsNew entries.now links.now links.now list result }
{
    Link {
        place: 0,
        start: 0,
        prev: 0,
        jump: 0,
        up: NONE,
    }
}

// The next node of a list, which stands over its own place alone.
fn single(entries: &[Entry], links: &[Link], last: u32) -> Link
    requires linked { IsLinked entries.now links.now }
    requires last { IsEnd entries.now links.now (list_of entries.now last) last }
    requires small { length entries.now < NONE }
    ensures { IsNew entries.now links.now links.now (list_of entries.now last) result }
{
    let place = links[last as usize].place + 1;
    Link {
        place,
        start: place,
        prev: last,
        jump: last,
        up: NONE,
    }
}

// The next node of a list, with two others.
fn over_two(entries: &[Entry], links: &mut Vec<Link>, last: u32) -> Link
    requires linked { IsLinked entries.now links.old.items }
    requires last { IsEnd entries.now links.old.items (list_of entries.now last) last }
    requires small { length entries.now < NONE }
    requires pair { 0 < start_of links.old.items last }
    ensures new { IsNew entries.now links.old.items links.new.items (list_of entries.now last) result }
    ensures len { vec_len links.new ≡ vec_len links.old }
    ensures capacity { vec_capacity links.new ≡ vec_capacity links.old }
{
    let to = links.len() as u32;
    let first = links[last as usize];
    let second = links[first.jump as usize];
    raise(links, last, to);
    raise(links, first.jump, to);
    Link {
        place: first.place + 1,
        start: second.start,
        prev: last,
        jump: second.jump,
        up: NONE,
    }
}

// The next node of a list.
fn next_link(entries: &[Entry], links: &mut Vec<Link>, list: u32, last: u32) -> Link
    requires linked { IsLinked entries.now links.old.items }
    requires last { IsLast entries.now links.old.items list last }
    requires small { length entries.now < NONE }
    ensures new { IsNew entries.now links.old.items links.new.items list result }
    ensures len { vec_len links.new ≡ vec_len links.old }
    ensures capacity { vec_capacity links.new ≡ vec_capacity links.old }
{
    if last == NONE {
        return first_link(entries, links, list);
    }
    if is_pair(entries, links, last) {
        return over_two(entries, links, last);
    }
    single(entries, links, last)
}

// An amount after the last one of its list.
pub(crate) fn grow(
    entries: &mut Vec<Entry>,
    links: &mut Vec<Link>,
    leasts: &mut Vec<Option<u64>>,
    entry: Entry,
    last: u32,
)
    requires pool { IsPool entries.old.items links.old.items leasts.old.items }
    requires last { IsLast entries.old.items links.old.items entry.list last }
    requires small { vec_len entries.old < NONE }
    requires entry_room { vec_len entries.old < vec_capacity entries.old }
    requires link_room { vec_len links.old < vec_capacity links.old }
    requires least_room { vec_len leasts.old < vec_capacity leasts.old }
    ensures pool { IsPool entries.new.items links.new.items leasts.new.items }
    ensures entries { entries.new.items ≡ entries.old.items ++ entry ∷ [] }
    ensures place { (link_at links.new.items (vec_len entries.old)).place ≡ length (amounts_of entry.list entries.old.items) }
    ensures kept { (i : ℕ) → i < vec_len entries.old → IsKept (link_at links.old.items i) (link_at links.new.items i) }
    ensures entry_len { vec_len entries.new ≡ vec_len entries.old + 1 }
    ensures link_len { vec_len links.new ≡ vec_len links.old + 1 }
    ensures least_len { vec_len leasts.new ≡ vec_len leasts.old + 1 }
    ensures entry_capacity { vec_capacity entries.old ≤ vec_capacity entries.new }
    ensures link_capacity { vec_capacity links.old ≤ vec_capacity links.new }
    ensures least_capacity { vec_capacity leasts.old ≤ vec_capacity leasts.new }
{
    let node = entries.len() as u32;
    let link = next_link(entries, links, entry.list, last);
    entries.push(entry).unwrap();
    links.push(link).unwrap();
    leasts.push(None).unwrap();
    mend(entries, links, leasts, node);
}
