//! A live day before its first message or stop.

ghost use Rattle.std.specs.Prelude.{◌≡◌, ◌≤◌, IfErr, IfOk, None, false, not, true};
ghost use Rattle.cash_amounts.specs.declared.limits.TheConstants.{MAX_ENTRIES};
ghost use Rattle.batch_records.specs.Codes.{first_code};
ghost use Rattle.batch_records.specs.Made.{day_in, is_late};
ghost use Rattle.batch_records.specs.Step.{after};
ghost use Rattle.batch_records.specs.Tallies.{is_behind_setup};
ghost use Rattle.live_records.specs.Ears.{Fits, HasAllRoom, IsHeard};
ghost use Rattle.live_records.specs.Heard.{Heard, has_end, nothing};
ghost use Rattle.live_records.specs.Setups.{BreaksSetup, HearsSetup, IsOfSetup, IsSetup};

use crate::ear::Ear;
use crate::kinds::is_late;
use crate::opened::OpenBatch;
use batch_records::{Day, DayCode, DayRoom, SoFar};
use cash_amounts::Memory;
use record_rows::Row;
use std::alloc::Global;

/// What the records of a live day come to as long as none is a message or a stop.
#[derive(Drop)]
pub struct Setup {
    /// What they come to in a day file.
    pub so_far: SoFar,
}

impl Setup {
    /// No records, with room for the greatest setup. `Memory` says that there wasn't that much.
    pub fn with_room(alloc: Global) -> Result<Setup, Memory>
        ensures heard { IfOk result (λ setup. IsSetup nothing setup.so_far) }
        ensures setup { IfOk result (λ setup. IsOfSetup setup.so_far) }
    {
        let so_far = SoFar::with_room(alloc)?;
        Ok(Setup { so_far })
    }

    // Hears a record without a code that is none of a setup: END. A message or a stop isn't heard, and all stays.
    fn hear_end(&mut self, row: &Row) -> bool
        requires setup { IsOfSetup self.old.so_far }
        requires fine { first_code self.old.so_far row.now ≡ None }
        requires started { self.old.so_far.started ≡ true }
        requires behind { is_behind_setup self.old.so_far row.now ≡ true }
        ensures heard { result ≡ true → self.new.so_far ≡ after self.old.so_far row.now }
        ensures over { result ≡ false → self.new ≡ self.old }
        ensures late { is_late row.now ≡ not result }
    {
        if is_late(row) {
            return false;
        }
        self.so_far.ended = true;
        self.so_far.in_batch = false;
        true
    }

    /// Hears a record, unless the setup is over by it: true where it is heard. Else it is one of a message, or a stop, without a code, and the
    /// first for an `Ear`. At a code it ends the run. Where it isn't heard, all stays. Takes no memory.
    pub fn hear(&mut self, row: &Row) -> Result<bool, DayCode>
        requires { IsOfSetup self.old.so_far }
        ensures heard { IfOk result (λ heard. heard ≡ true
            → HearsSetup row.now self.old.so_far self.new.so_far) }
        ensures over { IfOk result (λ heard. heard ≡ false → (self.new ≡ self.old)
            × (self.old.so_far.started ≡ true) × (is_late row.now ≡ true)) }
        ensures code { IfErr result (λ code. BreaksSetup row.now self.old.so_far code
            × (self.new ≡ self.old)) }
        ensures setup { IsOfSetup self.new.so_far }
    {
        match self.so_far.take_in_room(row) {
            Ok(taken) => {
                if taken {
                    Ok(true)
                } else {
                    Ok(self.hear_end(row))
                }
            }
            Err(code) => Err(code),
        }
    }

    /// Whether END was accepted: then the day is complete once its input ends, with no message and no stop.
    pub fn has_end(&self) -> bool
        ensures { (h : Heard) → IsSetup h self.now.so_far → result ≡ has_end h }
    {
        self.so_far.ended
    }

    /// The day, whose setup is over, with this room for what comes, and what is kept of its records. Takes no memory.
    pub fn open(self, coming: OpenBatch, room: DayRoom) -> (Ear, Day)
        requires setup { IsOfSetup self.so_far }
        requires started { self.so_far.started ≡ true }
        requires shut { coming.batch ≡ None }
        requires most { MAX_ENTRIES ≤ coming.most }
        requires room { HasAllRoom room }
        ensures heard { (h : Heard) → IsSetup h self.so_far → IsHeard h result.0 result.1 }
        ensures day { result.1 ≡ record (day_in self.so_far) { room = room } }
        ensures shut { result.0.coming.batch ≡ None }
        ensures begun { result.0.begun ≡ false }
        ensures fits { Fits result.0 result.1 }
    {
        let (day, tally) = self.so_far.open(room);
        let ear = Ear {
            tally,
            before: tally,
            coming,
            begun: false,
            passing: false,
        };
        (ear, day)
    }
}
