//! Requests for the memory of a map.
ghost use Rattle.std.specs.Prelude.{◌≡◌, ◌+◌, ◌≤◌, ◌<◌, if◌then◌else◌, is_some, IfOk, IsOk, OnErr, OnOk, None, Some};
ghost use Rattle.std.specs.BTreeMap as tree;
ghost use Rattle.indexmap.specs.IndexMap.{get, hasher_of, index_map_len, insert_entry, spare, IsEmpty, IsUnchanged, IsUnique, Updates};
ghost use Rattle.std.specs.Mem.{type_size};
ghost use Rattle.refused_memory.specs.declared.lists.TheConstants.{LARGEST};
ghost use Rattle.refused_memory.specs.declared.maps.TheConstants.{MOST_ENTRIES};

use crate::Memory;
use crate::memory::refused;
use indexmap::IndexMap;
use std::alloc::Global;
use std::collections::BTreeMap;
use std::hash::Hash;

/// The most entries that a map is asked for at once. A map has room for at most 9 * 2^28, and refuses more by itself, with no one asked.
pub const MOST_ENTRIES: usize = 1 << 31;

/// An empty map with room for so many entries.
pub fn map_with_capacity<K: Eq + Hash, V>(
    alloc: Global,
    capacity: usize,
) -> Result<IndexMap<K, V>, Memory>
    requires many { capacity ≤ MOST_ENTRIES }
    requires large { (type_size K.row ≤ LARGEST) × (type_size V.row ≤ LARGEST) }
    ensures empty { IfOk result IsEmpty }
    ensures len { IfOk result (λ m. index_map_len m ≡ 0) }
    ensures spare { IfOk result (λ m. capacity ≤ spare m) }
    ensures unique { IfOk result (IsUnique K.eq) }
    ensures succeeds { capacity ≡ 0 → IsOk result }
{
    match IndexMap::with_capacity(alloc, capacity) {
        Ok(map) => Ok(map),
        Err(_) => Err(refused()),
    }
}

/// Gives a key this value, and the value that it had. A key that is there keeps its place, and a new one goes last. Where that finds no memory, the pair
/// is dropped and the map stays.
pub fn insert_last<K: Eq + Hash + Drop, V: Drop>(
    map: &mut IndexMap<K, V>,
    key: K,
    value: V,
) -> Result<Option<V>, Memory>
    requires { (type_size K.row ≤ LARGEST) × (type_size V.row ≤ LARGEST) }
    ensures old { IfOk result (λ old. old ≡ get K.eq map.old key) }
    ensures updates { OnOk result (Updates K.eq map.old map.new key (Some value)) }
    ensures entries { OnOk result (map.new.entries ≡ insert_entry K.eq map.old.entries key value) }
    ensures len { IfOk result (λ old. index_map_len map.new ≡ index_map_len map.old + (if is_some old then 0 else 1)) }
    ensures err { OnErr result (IsUnchanged map.old map.new) }
    ensures absent { OnErr result (get K.eq map.old key ≡ None) }
    ensures succeeds { 0 < spare map.old → IsOk result }
    ensures spare { spare map.old ≤ spare map.new + 1 }
    ensures hasher { hasher_of map.new ≡ hasher_of map.old }
    ensures unique { IsUnique K.eq map.new }
{
    match map.insert(key, value) {
        Ok(old) => Ok(old),
        Err(_) => Err(refused()),
    }
}

/// Gives a key this value, and the value that it had. Where that finds no memory, the pair is dropped and the map stays.
pub fn insert<K: Ord + Drop, V: Drop>(
    map: &mut BTreeMap<K, V>,
    key: K,
    value: V,
) -> Result<Option<V>, Memory>
    requires { (type_size K.row ≤ LARGEST) × (type_size V.row ≤ LARGEST) }
    ensures old { IfOk result (λ old. old ≡ tree.get K.cmp map.old key) }
    ensures updates { OnOk result (tree.Updates K.cmp map.old map.new key (Some value)) }
    ensures entries { OnOk result (map.new.entries ≡ tree.insert_entry K.cmp map.old.entries key value) }
    ensures len { IfOk result (λ old. tree.btree_map_len map.new ≡ tree.btree_map_len map.old + (if is_some old then 0 else 1)) }
    ensures absent { OnErr result (tree.get K.cmp map.old key ≡ None) }
    ensures err { OnErr result (tree.IsUnchanged map.old map.new) }
    ensures ordered { tree.IsOrdered K.cmp map.new }
{
    match map.insert(key, value) {
        Ok(old) => Ok(old),
        Err(_) => Err(refused()),
    }
}
