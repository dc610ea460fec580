//! The three tables of flags: of debits, of items that wait, and of entries that are kept.
ghost use Rattle.std.specs.Prelude.{◌≡◌, ◌+◌, ◌<◌, ◌≤◌, ◌∷◌, [], IfOk, length};
ghost use Rattle.refused_memory.specs.declared.lists.TheConstants.{MOST};
ghost use Rattle.machine.specs.Records.Messages.{entries, message_at};
ghost use Rattle.day_facts.specs.declared.watched.Watched.TheVariants as watches;
ghost use Rattle.day_facts.specs.FlagTables.{IsFree, no_tables, table_in, tables_after, with_watched};
ghost use Rattle.day_facts.specs.Left.{debits_after, kept_after, waiting_after, watched_row};
ghost use Rattle.day_facts.specs.Listed.{row_pushed, with_rows};

use crate::flags::FlagRows;
use crate::left::{note_booking, note_objection};
use crate::watched::Watched;
use cash_amounts::{Memory, MessageNumber};
use commit_journal::Head;
use refused_memory::{push, with_capacity};
use rule_book::Setting;
use std::alloc::Global;
use std::marker::Model;

// The tables stand in one list: what a value has in a list takes no proof of its own where the value is let go.
#[derive(Drop)]
pub struct DayFlags {
    tables: Vec<FlagRows>,
}

impl Model for DayFlags {
    ghost use Rattle.std.specs.Prelude.{◌≡◌, length};
    ghost use Rattle.day_facts.specs.FlagTables.{AreTables, FlagTables, tables_of};

    ghost Value = { FlagTables };

    ghost view = { λ flags. tables_of flags.tables.items };

    ghost invariant = { λ flags. AreTables flags.tables.items };
}

fn table(tables: &[FlagRows], i: usize) -> &FlagRows
    requires { i < length tables.now }
    ensures { result.now ≡ table_in tables.now i }
{
    &tables[i]
}

fn note_tables(tables: &mut [FlagRows], setting: &Setting, aim: Option<u32>, head: Head)
    requires { length tables.old ≡ 3 }
    ensures { tables.new
        ≡ with_rows (debits_after head (table_in tables.old 0).rows) (table_in tables.old 0)
        ∷ with_rows (waiting_after setting.now.day aim head (table_in tables.old 1).rows)
        (table_in tables.old 1)
        ∷ with_rows (kept_after setting.now.day aim head (table_in tables.old 2).rows)
        (table_in tables.old 2) ∷ [] }
{
    note_booking(&mut tables[0], head);
    note_booking(&mut tables[1], head);
    note_objection(&mut tables[1], setting, aim, head.msg);
    note_objection(&mut tables[2], setting, aim, head.msg);
}

fn arrive_tables(tables: &mut [FlagRows], setting: &Setting, n: u32)
    requires three { length tables.old ≡ 3 }
    requires first { IsFree (length (entries setting.now.day n) + 1) (table_in tables.old 0) }
    requires second { IsFree (length (entries setting.now.day n) + 1) (table_in tables.old 1) }
    requires third { IsFree (length (entries setting.now.day n) + 1) (table_in tables.old 2) }
    ensures { tables.new
        ≡ row_pushed (watched_row watches.Debits setting.now.day n) (table_in tables.old 0)
        ∷ row_pushed (watched_row watches.Waiting setting.now.day n) (table_in tables.old 1)
        ∷ row_pushed (watched_row watches.Kept setting.now.day n) (table_in tables.old 2) ∷ [] }
{
    tables[0].arrive(setting, Watched::Debits, n);
    tables[1].arrive(setting, Watched::Waiting, n);
    tables[2].arrive(setting, Watched::Kept, n);
}

impl DayFlags {
    // No rows, with room for so many, and for so many items in all rows of a table.
    pub fn with_room(alloc: Global, rows: usize, items: u32) -> Result<DayFlags, Memory>
        requires { rows ≤ MOST }
        ensures { IfOk result (λ flags. flags ≡ no_tables rows items) }
    {
        let mut tables = with_capacity(alloc, 3)?;
        push(&mut tables, FlagRows::with_room(alloc, rows, items)?)?;
        push(&mut tables, FlagRows::with_room(alloc, rows, items)?)?;
        push(&mut tables, FlagRows::with_room(alloc, rows, items)?)?;
        Ok(DayFlags { tables })
    }

    // Takes message n, which comes next, over no lines. Takes no memory.
    pub fn arrive(&mut self, setting: &Setting, n: MessageNumber)
        requires rows { 0 < self.old.room_for_rows }
        requires items { length (entries setting.now.day n) + 1 ≤ self.old.room_for_items }
        ensures { self.new ≡ with_watched setting.now.day n self.old }
    {
        arrive_tables(self.tables.as_mut_slice(), setting, n);
    }

    // Notes a line, which may revoke something of the batch, where there is one.
    pub fn note(&mut self, setting: &Setting, aim: Option<u32>, head: Head)
        ensures { self.new ≡ tables_after setting.now.day aim head self.old }
    {
        note_tables(self.tables.as_mut_slice(), setting, aim, head);
    }

    // Debit entries, until they are booked.
    pub fn debits(&self) -> &FlagRows
        ensures { result.now.rows ≡ self.now.debits }
    {
        table(self.tables.as_slice(), 0)
    }

    // Items that have to be booked before the message is settled, until they are booked or revoked.
    pub fn waiting(&self) -> &FlagRows
        ensures { result.now.rows ≡ self.now.waiting }
    {
        table(self.tables.as_slice(), 1)
    }

    // Entries of E batches, until they are revoked.
    pub fn kept(&self) -> &FlagRows
        ensures { result.now.rows ≡ self.now.kept }
    {
        table(self.tables.as_slice(), 2)
    }
}
