//! A live day at work, from its first message or stop on.
ghost use Rattle.std.specs.Prelude.{◌≡◌, ◌+◌, ◌∷◌, ◌++◌, ◌||◌, [], None, false, true, List, Ok, OnOk, ℕ};
ghost use Rattle.batch_records.specs.Made.{is_entry, is_late};
ghost use Rattle.batch_records.specs.Records.{Fields};
ghost use Rattle.outside_io.specs.Calls.{Puts};
ghost use Rattle.record_rows.specs.Rows.{kept_row};
ghost use Rattle.live_records.specs.Heard.{Heard, day_of, has_end, hear, heard};
ghost use Rattle.live_day.specs.Told.{told_end};
ghost use Rattle.live_day.specs.Events.{AreOfDay};
ghost use Rattle.live_day.specs.Working.{EndsBatch, HearsNext, IsAtWork, IsWorking, NextComes, RowComes, TellsRow};

use crate::hearing::{end_into, hear_into};
use crate::live_floor::LiveFloor;
use live_records::Ear;
use outside_io::{Sink, WriteFault};
use record_rows::Row;
use rule_book::Setting;

/// A day at work: what is kept of its records, the day with what is found out about it, and its floor.
#[derive(Drop)]
pub(crate) struct Work {
    pub(crate) ear: Ear,
    pub(crate) setting: Setting,
    pub(crate) floor: LiveFloor,
}

impl Work {
    // Ends the open batch in front of a record that is no entry, and takes and tells it.
    fn end_batch<S: Sink>(&mut self, row: &Row, sink: &mut S) -> Result<(), WriteFault>
        requires { RowComes row.now self.old }
        ensures ended { (records : List Fields) (r : Fields) → row.now ≡ kept_row r
            → IsAtWork records self.old
            → EndsBatch records r (S.state sink.old) (S.state sink.new) result self.new }
        ensures begun { self.new.ear.begun ≡ self.old.ear.begun }
        ensures shut { is_entry row.now ≡ false → self.new.ear.coming.batch ≡ None }
    {
        if end_into(&mut self.setting, &mut self.ear, row) {
            self.floor.take(&self.setting, sink)
        } else {
            Ok(())
        }
    }

    // Hears a record before which no batch has to end.
    fn hear_next<S: Sink>(
        &mut self,
        row: &Row,
        number: u64,
        sink: &mut S,
    ) -> Result<bool, WriteFault>
        requires { NextComes row.now self.old }
        ensures heard { (h : Heard) (r : Fields) → row.now ≡ kept_row r → IsWorking h self.old
            → AreOfDay h → AreOfDay (hear h r) → number ≡ h.count + 1
            → HearsNext h r number (S.state sink.old) (S.state sink.new) result self.new }
        ensures begun { result ≡ Ok true → self.new.ear.begun ≡ true }
    {
        let said = hear_into(&mut self.setting, &mut self.ear, row);
        self.floor.answer(&self.setting, said, number, sink)
    }

    /// Hears the record of this number, makes what it calls for, and tells it. False where it ends the run. At an error a write failed, and
    /// a front of what it calls for was written; nothing more is to be heard then. Takes no memory.
    pub(crate) fn hear<S: Sink>(
        &mut self,
        row: &Row,
        number: u64,
        sink: &mut S,
    ) -> Result<bool, WriteFault>
        requires { RowComes row.now self.old }
        ensures told { (records : List Fields) (r : Fields) → row.now ≡ kept_row r
            → IsAtWork records self.old → number ≡ (heard records).count + 1
            → (text : List ℕ) × TellsRow records r text
            × Puts (S.state sink.old) (S.state sink.new) text result }
        ensures goes { (records : List Fields) (r : Fields) → row.now ≡ kept_row r
            → IsAtWork records self.old → number ≡ (heard records).count + 1 → result ≡ Ok true
            → IsAtWork (records ++ r ∷ []) self.new }
        ensures breaks { (records : List Fields) (r : Fields) → row.now ≡ kept_row r
            → IsAtWork records self.old → number ≡ (heard records).count + 1 → result ≡ Ok false
            → (heard (records ++ r ∷ [])).broken ≡ true }
        ensures begun { result ≡ Ok true → self.new.ear.begun ≡ true }
    {
        self.end_batch(row, sink)?;
        self.hear_next(row, number, sink)
    }

    /// Whether END was accepted.
    pub(crate) fn has_end(&self) -> bool
        ensures { (records : List Fields) → IsAtWork records self.now
            → result ≡ has_end (heard records) }
    {
        self.ear.has_end()
    }

    /// The day is over: makes and tells the rest of its lines, then what each account holds, and how many lines there are. At an error a
    /// write failed, and a front of this was written. Takes no memory.
    pub(crate) fn end<S: Sink>(&mut self, sink: &mut S) -> Result<(), WriteFault>
        requires { (records : List Fields) × IsAtWork records self.old }
        ensures { (records : List Fields) → IsAtWork records self.old
            → Puts (S.state sink.old) (S.state sink.new) (told_end (day_of (heard records)))
            result }
    {
        self.floor.end(&self.setting, sink)
    }
}
