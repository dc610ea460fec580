//! Which items are due, and which were brought up to date.
ghost use Rattle.std.specs.Prelude.{◌≡◌, ◌<◌, ◌≤◌, ◌-◌, ◌^◌, [], ◌++◌, false, length, replicate, slice_set, IfOk, IfSome};
ghost use Rattle.number_set.specs.Members.{has};
ghost use Rattle.number_set.specs.Next.{IsNext};
ghost use Rattle.due_items.specs.Renewing.{Flags, put_at};

use cash_amounts::Memory;
use growing_set::GrowingSet;
use std::alloc::Global;
use std::marker::Model;

// Of each item, by number, whether it is due, and whether it was brought up to date since somebody asked.
#[derive(Drop)]
pub struct Flags {
    due: GrowingSet,
    renewed: GrowingSet,
}

impl Model for Flags {
    ghost use Rattle.std.specs.Prelude.{◌≡◌};
    ghost use Rattle.due_items.specs.Renewing.{Flags};

    ghost Value = { Flags };

    ghost view = { λ flags. record { due = flags.due.set; renewed = flags.renewed.set; room = flags.due.room } };

    ghost invariant = { λ flags. flags.renewed.room ≡ flags.due.room };
}

// Makes number i a member or none. The others stay.
fn put(set: &mut GrowingSet, i: usize, member: bool)
    ensures set { set.new.set ≡ slice_set set.old.set i member }
    ensures room { set.new.room ≡ set.old.room }
{
    if i >= set.bound() as usize {
        return;
    }
    if member {
        set.insert(i as u32);
    } else {
        set.remove(i as u32);
    }
}

impl Flags {
    // No items, and room for so many.
    pub fn with_room(alloc: Global, most: u32) -> Result<Flags, Memory>
        ensures { IfOk result (λ flags. flags ≡ record { due = []; renewed = []; room = most }) }
    {
        let due = GrowingSet::with_room(alloc, most)?;
        let renewed = GrowingSet::with_room(alloc, most)?;
        Ok(Flags { due, renewed })
    }

    // So many more items, of which none is due and none to be asked for. Takes no memory, but room for them.
    pub fn grow(&mut self, by: u32)
        ensures { by ≤ self.old.room → self.new ≡ record {
          due = self.old.due ++ replicate by false;
          renewed = self.old.renewed ++ replicate by false;
          room = self.old.room - by;
        } }
    {
        if by > self.due.room() {
            return;
        }
        self.due.grow(by);
        self.renewed.grow(by);
    }

    // How many items there are.
    pub fn count(&self) -> u32
        ensures { result ≡ length self.now.due }
    {
        self.due.bound()
    }

    // Whether item i is due, which is brought up to date by this.
    pub fn put(&mut self, i: usize, due: bool)
        ensures { self.new ≡ put_at i due self.old }
    {
        put(&mut self.due, i, due);
        put(&mut self.renewed, i, true);
    }

    // The next item that is due.
    pub fn next_due(&self, from: u32) -> Option<u32>
        ensures next { IsNext (has self.now.due) from result }
        ensures within { IfSome result (λ i. i < length self.now.due) }
        ensures small { length self.now.due < 2 ^ 32 }
    {
        self.due.next(from)
    }

    // The next item that was brought up to date.
    pub fn next_renewed(&self, from: u32) -> Option<u32>
        ensures next { IsNext (has self.now.renewed) from result }
        ensures within { IfSome result (λ i. i < length self.now.renewed) }
        ensures small { length self.now.renewed < 2 ^ 32 }
    {
        self.renewed.next(from)
    }

    // It is no longer to be asked for.
    pub fn forget(&mut self, i: u32)
        requires { i < length self.old.renewed }
        ensures { self.new ≡ record {
          due = self.old.due;
          renewed = slice_set self.old.renewed i false;
          room = self.old.room;
        } }
    {
        self.renewed.remove(i);
    }
}
