//! Rows of items. Contracts see them as a list of lists, with the room that is left.
ghost use Rattle.std.specs.Prelude.{◌≡◌, ◌+◌, ◌-◌, ◌<◌, ◌≤◌, ◌∷◌, ◌++◌, [], IfOk, OnOk, OnErr, drop, get_or, length, option_map, sum_by, take};
ghost use Rattle.std.specs.Mem.{type_size};
ghost use Rattle.refused_memory.specs.declared.lists.TheConstants.{LARGEST, MOST};
ghost use Rattle.row_list.specs.Cut.{RisesTo, cut};
ghost use Rattle.row_list.specs.Rows.{begun, changed, item_at, pushed, row_at, with_item, with_room, without_last};

use refused_memory::{Memory, push, with_capacity};
use std::alloc::Global;
use std::marker::Model;

/// Rows of items, in the order in which they were begun, which count from 0 as the items of each. All items stand in one list,
/// and a second list has where each row ends, so that many rows take two pieces of memory.
#[derive(Drop)]
pub struct RowList<T> {
    ends: Vec<usize>,
    items: Vec<T>,
}

impl<T> Model for RowList<T> {
    ghost use Rattle.std.specs.Prelude.{◌-◌, length, vec_capacity, vec_len};
    ghost use Rattle.row_list.specs.Cut.{RisesTo, cut};
    ghost use Rattle.row_list.specs.Rows.{Rows};

    ghost Value = { Rows T };

    ghost view = { λ list. record {
      rows = cut 0 list.ends.items list.items.items;
      room_for_rows = vec_capacity list.ends - vec_len list.ends;
      room_for_items = vec_capacity list.items - vec_len list.items;
    } };

    ghost invariant = { λ list. RisesTo 0 list.ends.items (length list.items.items) };
}

// Where row i begins, of rows that end there: where the one before ends.
fn start_of(ends: &[usize], i: usize) -> usize
    requires { i ≤ length ends.now }
    ensures { result ≡ get_or (0 ∷ ends.now) i 0 }
{
    if i == 0 { 0 } else { ends[i - 1] }
}

// The items from start on up to end.
fn between<T>(items: &[T], start: usize, end: usize) -> &[T]
    requires first { start ≤ end }
    requires last { end ≤ length items.now }
    ensures { result.now ≡ take (end - start) (drop start items.now) }
{
    &items[start..end]
}

// The row at an index, of rows that end there.
fn row_in<'a, T>(ends: &'a [usize], items: &'a [T], i: usize) -> &'a [T]
    requires { RisesTo 0 ends.now (length items.now) }
    ensures { result.now ≡ row_at (cut 0 ends.now items.now) i }
{
    if i >= ends.len() {
        return &[];
    }
    let start = start_of(ends, i);
    let end = ends[i];
    between(items, start, end)
}

impl<T: Drop> RowList<T> {
    /// No rows, and room for none. Takes no memory.
    pub fn new(alloc: Global) -> RowList<T>
        ensures { result ≡ with_room 0 0 }
    {
        RowList {
            ends: Vec::new(alloc),
            items: Vec::new(alloc),
        }
    }

    /// No rows, with room for so many, and for so many items in all of them. `Memory` says that there wasn't that much.
    pub fn with_room(alloc: Global, rows: usize, items: usize) -> Result<RowList<T>, Memory>
        requires many { (rows ≤ MOST) × (items ≤ MOST) }
        requires large { type_size T.row ≤ LARGEST }
        ensures { IfOk result (λ list. list ≡ with_room rows items) }
    {
        let ends = with_capacity(alloc, rows)?;
        let items = with_capacity(alloc, items)?;
        Ok(RowList { ends, items })
    }

    /// How many rows there are.
    pub fn rows(&self) -> usize
        ensures { result ≡ length self.now.rows }
    {
        self.ends.len()
    }

    /// How many items the rows have together.
    pub fn item_count(&self) -> usize
        ensures { result ≡ sum_by length self.now.rows }
    {
        self.items.len()
    }

    /// The items of a row, none where there is no such row.
    pub fn row(&self, i: usize) -> &[T]
        ensures { result.now ≡ row_at self.now.rows i }
    {
        row_in(self.ends.as_slice(), self.items.as_slice(), i)
    }

    /// Item k of row i. `None` where there is no such row, or it has no such item.
    pub fn at(&self, i: usize, k: usize) -> Option<&T>
        ensures { option_map (λ x. x.now) result ≡ item_at self.now.rows i k }
    {
        self.row(i).get(k)
    }

    /// Begins a row after the others. Where that finds no memory, the rows stay.
    pub fn begin_row(&mut self) -> Result<(), Memory>
        ensures ok { OnOk result (self.new.rows ≡ self.old.rows ++ [] ∷ []) }
        ensures err { OnErr result (self.new.rows ≡ self.old.rows) }
        ensures rows { self.old.room_for_rows ≤ self.new.room_for_rows + 1 }
        ensures items { self.new.room_for_items ≡ self.old.room_for_items }
    {
        push(&mut self.ends, self.items.len())?;
        Ok(())
    }

    /// Begins a row after the others. Takes no memory, but needs room for the row.
    pub fn begin_row_in_room(&mut self)
        requires { 0 < self.old.room_for_rows }
        ensures { self.new ≡ begun self.old }
    {
        self.ends.push_reserved(self.items.len());
    }

    /// Puts an item at the end of the last row. Where that finds no memory, the item is dropped and the rows stay.
    pub fn push(&mut self, item: T) -> Result<(), Memory>
        requires begun { 0 < length self.old.rows }
        requires large { type_size T.row ≤ LARGEST }
        ensures ok { OnOk result (self.new.rows ≡ with_item item self.old.rows) }
        ensures err { OnErr result (self.new.rows ≡ self.old.rows) }
        ensures rows { self.new.room_for_rows ≡ self.old.room_for_rows }
        ensures items { self.old.room_for_items ≤ self.new.room_for_items + 1 }
    {
        push(&mut self.items, item)?;
        let last = self.ends.len() - 1;
        self.ends[last] = self.items.len();
        Ok(())
    }

    /// Puts an item at the end of the last row. Takes no memory, but needs room for the item.
    pub fn push_in_room(&mut self, item: T)
        requires row { 0 < length self.old.rows }
        requires room { 0 < self.old.room_for_items }
        ensures { self.new ≡ pushed item self.old }
    {
        self.items.push_reserved(item);
        let last = self.ends.len() - 1;
        self.ends[last] = self.items.len();
    }

    /// Puts an item in the place of item k of row i. Where there is no such item, it is dropped and the rows stay.
    pub fn set(&mut self, i: usize, k: usize, item: T)
        ensures { self.new ≡ changed i k item self.old }
    {
        if i >= self.ends.len() {
            return;
        }
        let start = start_of(self.ends.as_slice(), i);
        let size = self.ends[i] - start;
        if k < size {
            self.items[start + k] = item;
        }
    }

    /// Drops the last row with its items, whose room is free again.
    pub fn drop_last_row(&mut self)
        requires { 0 < length self.old.rows }
        ensures { self.new ≡ without_last self.old }
    {
        let last = self.ends.len() - 1;
        let start = start_of(self.ends.as_slice(), last);
        self.items.truncate(start);
        self.ends.truncate(last);
    }
}
