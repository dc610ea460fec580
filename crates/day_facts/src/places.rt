//! Places of lines, in rows.
ghost use Rattle.std.specs.Prelude.{◌≡◌, ◌+◌, ◌<◌, ◌≤◌, ◌++◌, [], None, Some, map, vec_capacity, vec_len, IfOk};
ghost use Rattle.std.specs.List.{range_with_len};
ghost use Rattle.std.specs.Option.{option_or};
ghost use Rattle.refused_memory.specs.declared.lists.TheConstants.{MOST};
ghost use Rattle.machine.specs.Words.{when};
ghost use Rattle.day_facts.specs.Listed.{row_pushed, with_rows};
ghost use Rattle.day_facts.specs.Lists.{at, changed, placed};
ghost use Rattle.rule_book.specs.Rows.{Rises, cut};
ghost use Rattle.day_facts.specs.Rows.{place_at};

use cash_amounts::{EntryNumber, LinePlace, Memory, MessageNumber};
use refused_memory::with_capacity;
use rule_book::rows::spot;
use std::alloc::Global;
use std::marker::Model;

// The place found before, else this one where the line passes.
pub fn or_here(found: Option<u32>, passes: bool, place: LinePlace) -> Option<u32>
    ensures { result ≡ option_or found (when passes place) }
{
    match found {
        None if passes => Some(place),
        _ => found,
    }
}

// ---- items

// The place of a line, or none, in four bytes: the first line has the place 1, and 0 stands for none. Contracts see the option.
#[derive(Clone, Copy)]
struct Place {
    number: u32,
}

impl Model for Place {
    ghost use Rattle.std.specs.Prelude.{ℕ, Option};

    ghost Value = { Option ℕ };

    ghost use Rattle.day_facts.specs.Places.{of_place, of_place-place_of, place_of};

    ghost view = { place_of };

    ghost inverse = { of_place };

    ghost inverse_ok = { λ a h. of_place-place_of a };
}

fn no_place() -> Place
    ensures { result ≡ None }
{
    Place { number: 0 }
}

fn place_is(place: u32) -> Place
    requires { 0 < place }
    ensures { result ≡ Some place }
{
    Place { number: place }
}

impl Place {
    fn get(self) -> Option<u32>
        ensures { result ≡ self }
    {
        if self.number == 0 {
            None
        } else {
            Some(self.number)
        }
    }
}

// The place found before, else this one.
fn or_this(found: Place, place: u32) -> Place
    requires { 0 < place }
    ensures { result ≡ option_or found (Some place) }
{
    match found.get() {
        Some(_) => found,
        None => place_is(place),
    }
}

fn put_at(items: &mut [Place], k: usize, place: u32)
    requires { 0 < place }
    ensures { items.new ≡ placed k place items.old }
{
    if k < items.len() {
        items[k] = or_this(items[k], place);
    }
}

fn place_of(items: &[Place], k: usize) -> Option<u32>
    ensures { result ≡ at items.now k }
{
    match items.get(k) {
        Some(place) => place.get(),
        None => None,
    }
}

// Adds items that have no place, within room. Takes no memory.
fn fill(items: &mut Vec<Place>, count: u32)
    requires { vec_len items.old + count ≤ vec_capacity items.old }
    ensures items { items.new.items ≡ items.old.items ++ map (λ k. None) (range_with_len 0 count) }
    ensures len { vec_len items.new ≡ vec_len items.old + count }
    ensures capacity { vec_capacity items.new ≡ vec_capacity items.old }
{
    for _k in 0..count {
        items.push_reserved(no_place());
    }
}

// ---- rows

fn place_in(ends: &[usize], items: &[Place], n: u32, k: u32) -> Option<u32>
    requires { Rises 0 ends.now }
    ensures { result ≡ place_at (cut 0 ends.now items.now) n k }
{
    match spot(ends, n, k) {
        Some(i) => place_of(items, i),
        None => None,
    }
}

fn put_in(ends: &[usize], items: &mut [Place], n: u32, k: u32, place: u32)
    requires rises { Rises 0 ends.now }
    requires place { 0 < place }
    ensures { cut 0 ends.now items.new ≡ changed n (placed k place) (cut 0 ends.now items.old) }
{
    if let Some(i) = spot(ends, n, k) {
        put_at(items, i, place);
    }
}

// For each message a row of places, one for each of its items. All stand in one list.
#[derive(Drop)]
pub struct PlaceRows {
    ends: Vec<usize>,
    items: Vec<Place>,
}

impl Model for PlaceRows {
    ghost use Rattle.std.specs.Prelude.{ℕ, ◌-◌, Option, length, vec_capacity, vec_len};
    ghost use Rattle.rule_book.specs.Rows.{RisesTo, cut};
    ghost use Rattle.day_facts.specs.Listed.{Rowed};

    ghost Value = { Rowed (Option ℕ) };

    ghost view = { λ rows. record {
      rows = cut 0 rows.ends.items rows.items.items;
      room_for_rows = vec_capacity rows.ends - vec_len rows.ends;
      room_for_items = vec_capacity rows.items - vec_len rows.items;
    } };

    ghost invariant = { λ rows. RisesTo 0 rows.ends.items (length rows.items.items) };
}

impl PlaceRows {
    // No rows, with room for so many, and for so many items in all of them.
    pub fn with_room(alloc: Global, rows: usize, items: usize) -> Result<PlaceRows, Memory>
        requires { (rows ≤ MOST) × (items ≤ MOST) }
        ensures { IfOk result (λ r.
            r ≡ record { rows = []; room_for_rows = rows; room_for_items = items }) }
    {
        let ends = with_capacity(alloc, rows)?;
        let items = with_capacity(alloc, items)?;
        Ok(PlaceRows { ends, items })
    }

    // Takes the next message, of so many items, of which none has a place. Takes no memory.
    pub fn arrive(&mut self, count: u32)
        requires rows { 0 < self.old.room_for_rows }
        requires items { count ≤ self.old.room_for_items }
        ensures { self.new ≡ row_pushed (map (λ k. None) (range_with_len 0 count)) self.old }
    {
        fill(&mut self.items, count);
        self.ends.push_reserved(self.items.len());
    }

    // The place of item k of message n.
    pub fn at(&self, n: MessageNumber, k: EntryNumber) -> Option<u32>
        ensures { result ≡ place_at self.now.rows n k }
    {
        place_in(self.ends.as_slice(), self.items.as_slice(), n, k)
    }

    // Places item k of message n, unless it has a place.
    pub fn put(&mut self, n: MessageNumber, k: EntryNumber, place: LinePlace)
        requires { 0 < place }
        ensures { self.new ≡ with_rows (changed n (placed k place) self.old.rows) self.old }
    {
        put_in(self.ends.as_slice(), self.items.as_mut_slice(), n, k, place);
    }
}
