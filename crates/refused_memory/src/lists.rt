//! Requests for the memory of a list.
ghost use Rattle.std.specs.Prelude.{◌≡◌, ◌+◌, ◌≤◌, ◌<◌, [], ◌∷◌, ◌++◌, if◌then◌else◌, length, string_bytes, IfOk, IsOk, OnErr, OnOk, is_ok, replicate};
ghost use Rattle.std.specs.Mem.{type_size};
ghost use Rattle.std.specs.Vec.{vec_len, vec_capacity};
ghost use Rattle.refused_memory.specs.declared.lists.TheConstants.{LARGEST, MOST};

use crate::Memory;
use crate::memory::refused;
use std::alloc::Global;

/// The most items that are asked for at once. So many of the largest take 2^46 bytes, and std refuses by itself, with no one asked, from 2^63 on.
pub const MOST: usize = 1 << 34;

/// The most bytes that one item takes.
pub const LARGEST: usize = 1 << 12;

/// An empty list with room for so many items.
pub fn with_capacity<T>(alloc: Global, capacity: usize) -> Result<Vec<T>, Memory>
    requires many { capacity ≤ MOST }
    requires large { type_size T.row ≤ LARGEST }
    ensures items { IfOk result (λ v. v.items ≡ []) }
    ensures len { IfOk result (λ v. vec_len v ≡ 0) }
    ensures capacity { IfOk result (λ v. capacity ≤ vec_capacity v) }
    ensures exact { IfOk result (λ v. vec_capacity v ≡ capacity) }
    ensures succeeds { capacity ≡ 0 → IsOk result }
{
    match Vec::with_capacity(alloc, capacity) {
        Ok(list) => Ok(list),
        Err(_) => Err(refused()),
    }
}

/// So many times the same item.
pub fn filled<T: Copy>(alloc: Global, item: T, count: usize) -> Result<Vec<T>, Memory>
    requires many { count ≤ MOST }
    requires large { type_size T.row ≤ LARGEST }
    ensures len { IfOk result (λ v. vec_len v ≡ count) }
    ensures items_if_clones_equal { IfOk result (λ v. ((y : T) → T.is_clone item y → y ≡ item)
        → v.items ≡ replicate count item) }
{
    match Vec::from_elem(alloc, item, count) {
        Ok(list) => Ok(list),
        Err(_) => Err(refused()),
    }
}

/// A list of the same items.
pub fn copied<T: Copy>(alloc: Global, items: &[T]) -> Result<Vec<T>, Memory>
    requires { type_size T.row ≤ LARGEST }
    ensures len { IfOk result (λ v. vec_len v ≡ length items.now) }
    ensures items_if_clones_equal { IfOk result (λ v. ((x y : T) → T.is_clone x y → y ≡ x)
        → v.items ≡ items.now) }
{
    match items.to_vec(alloc) {
        Ok(list) => Ok(list),
        Err(_) => Err(refused()),
    }
}

/// Takes room for so many more items than the list has. Its items stay.
pub fn reserve<T>(list: &mut Vec<T>, additional: usize) -> Result<(), Memory>
    requires many { additional ≤ MOST }
    requires large { type_size T.row ≤ LARGEST }
    ensures items { list.new.items ≡ list.old.items }
    ensures len { vec_len list.new ≡ vec_len list.old }
    ensures ok { OnOk result (vec_len list.new + additional ≤ vec_capacity list.new) }
    ensures capacity { vec_capacity list.old ≤ vec_capacity list.new }
    ensures succeeds { vec_len list.old + additional ≤ vec_capacity list.old → IsOk result }
    ensures full { OnErr result (vec_capacity list.old < vec_len list.old + additional) }
    ensures err { OnErr result (vec_capacity list.new ≡ vec_capacity list.old) }
{
    match list.reserve(additional) {
        Ok(()) => Ok(()),
        Err(_) => Err(refused()),
    }
}

/// Puts an item at the end. Where that finds no memory, the item is dropped and the list stays.
pub fn push<T: Drop>(list: &mut Vec<T>, item: T) -> Result<(), Memory>
    requires { type_size T.row ≤ LARGEST }
    ensures items { list.new.items ≡ (if is_ok result then list.old.items ++ item ∷ [] else list.old.items) }
    ensures len { vec_len list.new ≡ (if is_ok result then vec_len list.old + 1 else vec_len list.old) }
    ensures capacity { vec_capacity list.old ≤ vec_capacity list.new }
    ensures succeeds { vec_len list.old < vec_capacity list.old → IsOk result }
    ensures lower_bound { vec_len list.old ≤ vec_len list.new }
    ensures upper_bound { vec_len list.new ≤ vec_len list.old + 1 }
    ensures full { OnErr result (vec_capacity list.old ≤ vec_len list.old) }
{
    match list.push(item) {
        Ok(()) => Ok(()),
        Err(_) => Err(refused()),
    }
}

/// Puts copies of these items at the end. Where that finds no memory, the list stays.
pub fn extend_from_slice<T: Copy>(list: &mut Vec<T>, more: &[T]) -> Result<(), Memory>
    requires { type_size T.row ≤ LARGEST }
    ensures items { list.new.items ≡ (if is_ok result then list.old.items ++ more.now else list.old.items) }
    ensures len { vec_len list.new ≡ (if is_ok result then vec_len list.old + length more.now else vec_len list.old) }
    ensures capacity { vec_capacity list.old ≤ vec_capacity list.new }
    ensures succeeds { vec_len list.old + length more.now ≤ vec_capacity list.old → IsOk result }
{
    match list.extend_from_slice(more) {
        Ok(()) => Ok(()),
        Err(_) => Err(refused()),
    }
}

/// A text of its own.
pub fn text_of(alloc: Global, text: &str) -> Result<String, Memory>
    ensures { IfOk result (λ t. string_bytes t ≡ text.now) }
{
    match String::from_str(alloc, text) {
        Ok(text) => Ok(text),
        Err(_) => Err(refused()),
    }
}
