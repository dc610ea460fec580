//! Chains of slots on bands. What stands after the beginning of a band, and after each slot, is kept in two lists.
ghost use Rattle.std.specs.Prelude.{◌≡◌, ◌<◌, ◌≤◌, ◌+◌, ◌++◌, ◌^◌, None, length, replicate, vec_len, vec_capacity, IfOk};
ghost use Rattle.refused_memory.specs.declared.lists.TheConstants.{MOST};
ghost use Rattle.payment_queue.specs.Chains.{IsHooked, IsPut};
ghost use Rattle.payment_queue.specs.Links.{IsLinkable};
ghost use Rattle.payment_queue.specs.Linked.{IsBare, IsInside, step_of, SameSize};

use crate::link::{Link, link_to, no_link};
use refused_memory::{Memory, filled, with_capacity};
use std::alloc::Global;

/// For each slot the next one of its band, and for each band its first.
#[derive(Drop)]
pub(crate) struct Chain {
    pub(crate) links: Vec<Link>,
    pub(crate) ends: Vec<Link>,
}

// What stands after a place of a band: its beginning, or a slot.
pub(crate) fn step(chain: &Chain, at: Option<u32>, band: usize) -> Option<u32>
    requires { IsInside chain.now at band }
    ensures { result ≡ step_of chain.now at band }
{
    match at {
        Some(slot) => chain.links[slot as usize].slot(),
        None => chain.ends[band].slot(),
    }
}

// Sets what stands after a place of a band.
pub(crate) fn hook(chain: &mut Chain, at: Option<u32>, band: usize, to: Option<u32>)
    requires inside { IsInside chain.old at band }
    requires linkable { IsLinkable to }
    ensures hooked { IsHooked (step_of chain.old) (step_of chain.new) at band to }
    ensures size { SameSize chain.old chain.new }
{
    match at {
        Some(slot) => chain.links[slot as usize] = link_to(to),
        None => chain.ends[band] = link_to(to),
    }
}

// Puts a slot after a place of a band, and before what stood there.
pub(crate) fn put(
    chain: &mut Chain,
    slot: u32,
    band: usize,
    before: Option<u32>,
    after: Option<u32>,
)
    requires slot { slot < length chain.old.links.items }
    requires place { IsInside chain.old before band }
    requires few { length chain.old.links.items < 2 ^ 32 }
    requires linkable { IsLinkable after }
    ensures put { IsPut (step_of chain.old) (step_of chain.new) slot band before after }
    ensures size { SameSize chain.old chain.new }
{
    hook(chain, Some(slot), band, after);
    hook(chain, before, band, Some(slot));
}

// So many slots more, after which nothing stands.
fn push_links(links: &mut Vec<Link>, by: u32)
    requires { vec_len links.old + by ≤ vec_capacity links.old }
    ensures links { links.new.items ≡ links.old.items ++ replicate by None }
    ensures len { vec_len links.new ≡ vec_len links.old + by }
    ensures capacity { vec_capacity links.old ≤ vec_capacity links.new }
{
    for _i in 0..by {
        links.push_reserved(no_link());
    }
}

// So many slots more, at which nothing is. There is room for them.
pub(crate) fn grow(chain: &mut Chain, by: u32)
    requires { vec_len chain.old.links + by ≤ vec_capacity chain.old.links }
    ensures links { chain.new.links.items ≡ chain.old.links.items ++ replicate by None }
    ensures len { vec_len chain.new.links ≡ vec_len chain.old.links + by }
    ensures capacity { vec_capacity chain.old.links ≤ vec_capacity chain.new.links }
    ensures ends { chain.new.ends.items ≡ chain.old.ends.items }
{
    push_links(&mut chain.links, by);
}

// A chain of no slots, with nothing in it, and room for so many. `Err` says that there wasn't enough memory.
pub(crate) fn empty_chain(alloc: Global, most: usize, bands: usize) -> Result<Chain, Memory>
    requires { (most ≤ MOST) × (bands ≤ MOST) }
    ensures empty { IfOk result IsBare }
    ensures links { IfOk result (λ chain. length chain.links.items ≡ 0) }
    ensures ends { IfOk result (λ chain. length chain.ends.items ≡ bands) }
    ensures room { IfOk result (λ chain. vec_len chain.links + most ≤ vec_capacity chain.links) }
{
    let links = with_capacity(alloc, most)?;
    let ends = filled(alloc, no_link(), bands)?;
    Ok(Chain { links, ends })
}
