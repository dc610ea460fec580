//! What the records of a live day have come to: a setup, a day at work, or the end of the run.
ghost use Rattle.std.specs.Prelude.{◌≡◌, ◌≤◌, ◌∷◌, ◌++◌, [], List, IfOk, false, length, true, ℕ};
ghost use Rattle.cash_amounts.specs.declared.limits.TheConstants.{MAX_ENTRIES_OF_DAY, MAX_MESSAGES};
ghost use Rattle.outside_io.specs.Calls.{Puts};
ghost use Rattle.batch_records.specs.Made.{is_late};
ghost use Rattle.batch_records.specs.Records.{Fields};
ghost use Rattle.batch_records.specs.Sound.{is_sound};
ghost use Rattle.live_records.specs.Ears.{HasAllRoom};
ghost use Rattle.live_records.specs.Heard.{day_of, heard};
ghost use Rattle.live_records.specs.Setups.{IsOfSetup, IsSetup};
ghost use Rattle.rule_book.specs.Room.{HasRoom};
ghost use Rattle.program_answers.specs.Answers.{refusal_text};
ghost use Rattle.live_day.specs.NextRecord.{IsNext};
ghost use Rattle.live_day.specs.Rooms.{AreRooms};
ghost use Rattle.live_day.specs.Told.{told_end};
ghost use Rattle.live_day.specs.Stages.{IsAt, IsOpened, IsReady};
ghost use Rattle.live_day.specs.Working.{IsAtWork, TellsRow};

use crate::hearer::Hearer;
use crate::live_floor::LiveFloor;
use crate::refusals::put_bad;
use crate::rooms::Rooms;
use crate::work::Work;
use account_book::{Book, BookRoom, OneTill};
use batch_records::{Day, DayCode};
use cash_amounts::Memory;
use live_records::Setup;
use outside_io::{Sink, WriteFault};
use record_rows::Row;
use rule_book::{Kept, KeptRoom, Setting, SettingRoom};
use std::alloc::Global;
use std::mem;

/// What the records of a live day have come to.
#[derive(Drop)]
pub(crate) enum Stage {
    /// None was a message or a stop.
    Early { setup: Setup, rooms: Rooms },
    /// The day has begun.
    Late { work: Work },
    /// A bad record ended the run, or the day is over.
    Over,
}

// The setting of a day of the setup alone, in room that was taken for it. Takes no memory.
fn setting_in(day: Day, book: BookRoom, kept: KeptRoom, room: SettingRoom) -> Setting
    requires sound { is_sound day ≡ true }
    requires none { day.messages ≡ [] }
    requires has_all { HasAllRoom day.room }
    requires accounts { length day.accounts ≤ book.accounts }
    requires systems { length day.systems ≤ book.systems }
    requires kept { length day.accounts ≤ kept }
    requires held { length day.accounts ≤ room.accounts }
    requires messages { room.messages ≡ MAX_MESSAGES }
    requires entries { room.entries ≡ MAX_ENTRIES_OF_DAY }
    ensures day { result.day ≡ day }
    ensures room { HasRoom MAX_MESSAGES MAX_ENTRIES_OF_DAY result.day result.found result.tables }
{
    let book = Book::in_room(book, day.accounts(), day.systems());
    let kept = Kept::in_room(kept, &day);
    Setting::in_room(room, day, book, kept)
}

// The day, whose setup is over, at work. Takes no memory.
fn open_day(setup: Setup, rooms: Rooms) -> Work
    requires setup { IsOfSetup setup.so_far }
    requires started { setup.so_far.started ≡ true }
    requires rooms { AreRooms rooms }
    ensures { (records : List Fields) → IsSetup (heard records) setup.so_far
        → IsAtWork records result }
{
    let (ear, day) = setup.open(rooms.coming, rooms.day);
    let setting = setting_in(day, rooms.book, rooms.kept, rooms.setting);
    let till = OneTill::in_room(rooms.till, &setting.book);
    Work {
        ear,
        setting,
        floor: LiveFloor {
            floor: rooms.floor,
            till,
            walk: rooms.walk,
        },
    }
}

// Tells that a record is bad and ends the run.
fn end_run<S: Sink>(number: u64, code: DayCode, sink: &mut S) -> Result<bool, WriteFault>
    ensures text { Puts (S.state sink.old) (S.state sink.new) (refusal_text number code) result }
    ensures ends { (result ≡ Ok true) → ⊥ }
{
    put_bad(number, code, sink)?;
    Ok(false)
}

impl Stage {
    /// Before the first record, with room for the greatest day. All memory of a live day is taken here, and `Memory` says that there wasn't
    /// that much.
    pub(crate) fn with_room(alloc: Global) -> Result<Stage, Memory>
        ensures { IfOk result (λ stage. IsAt stage []) }
    {
        let setup = Setup::with_room(alloc)?;
        match Rooms::take(alloc) {
            Ok(rooms) => Ok(Stage::Early { setup, rooms }),
            Err(e) => {
                drop(setup);
                Err(e)
            }
        }
    }

    // Another one takes its place. The old one is dropped by a call: the proof of a drop in place has no end.
    fn put(&mut self, stage: Stage)
        ensures { self.new ≡ stage }
    {
        drop(mem::replace(self, stage));
    }

    // The setup is over: the day is at work. Takes no memory.
    fn open(&mut self)
        requires { (records : List Fields) × IsReady self.old records }
        ensures { (records : List Fields) → IsReady self.old records → IsOpened self.new records }
    {
        match mem::replace(self, Stage::Over) {
            Stage::Early { setup, rooms } => {
                let work = open_day(setup, rooms);
                self.put(Stage::Late { work });
            }
            other => self.put(other),
        }
    }

    // Hears the first record of a message or a stop. False where that ends the run.
    fn hear_first<S: Sink>(
        &mut self,
        row: &Row,
        number: u64,
        sink: &mut S,
    ) -> Result<bool, WriteFault>
        requires ready { (records : List Fields) × (r : Fields) × IsReady self.old records
            × IsNext records r row.now number }
        requires late { is_late row.now ≡ true }
        ensures told { (records : List Fields) (r : Fields) → IsReady self.old records
            → IsNext records r row.now number
            → (text : List ℕ) × TellsRow records r text
            × Puts (S.state sink.old) (S.state sink.new) text result }
        ensures goes { (records : List Fields) (r : Fields) → IsReady self.old records
            → IsNext records r row.now number → result ≡ Ok true
            → IsAt self.new (records ++ r ∷ []) }
        ensures breaks { (records : List Fields) (r : Fields) → IsReady self.old records
            → IsNext records r row.now number → result ≡ Ok false
            → (heard (records ++ r ∷ [])).broken ≡ true }
    {
        self.open();
        match self {
            Stage::Late { work } => work.hear(row, number, sink),
            _ => Ok(false),
        }
    }

    // Hears the record that comes. False where that ends the run.
    fn hear_next<S: Sink>(
        &mut self,
        row: &Row,
        number: u64,
        sink: &mut S,
    ) -> Result<bool, WriteFault>
        requires { (records : List Fields) × (r : Fields) × IsAt self.old records
            × IsNext records r row.now number }
        ensures told { (records : List Fields) (r : Fields) → IsAt self.old records
            → IsNext records r row.now number
            → (text : List ℕ) × TellsRow records r text
            × Puts (S.state sink.old) (S.state sink.new) text result }
        ensures goes { (records : List Fields) (r : Fields) → IsAt self.old records
            → IsNext records r row.now number → result ≡ Ok true
            → IsAt self.new (records ++ r ∷ []) }
        ensures breaks { (records : List Fields) (r : Fields) → IsAt self.old records
            → IsNext records r row.now number → result ≡ Ok false
            → (heard (records ++ r ∷ [])).broken ≡ true }
    {
        match self {
            Stage::Early { setup, .. } => match setup.hear(row) {
                Ok(true) => Ok(true),
                Ok(false) => self.hear_first(row, number, sink),
                Err(code) => end_run(number, code, sink),
            },
            Stage::Late { work } => work.hear(row, number, sink),
            Stage::Over => Ok(false),
        }
    }

    // The day is over, and at work: makes and tells the rest.
    fn end_work<S: Sink>(&mut self, sink: &mut S) -> Result<(), WriteFault>
        requires { (records : List Fields) × IsOpened self.old records }
        ensures { (records : List Fields) → IsOpened self.old records
            → Puts (S.state sink.old) (S.state sink.new) (told_end (day_of (heard records)))
            result }
    {
        match self {
            Stage::Late { work } => work.end(sink),
            _ => Ok(()),
        }
    }
}

impl Hearer for Stage {
    ghost has_heard = { IsAt };

    fn hear<S: Sink>(&mut self, row: &Row, number: u64, sink: &mut S) -> Result<(), WriteFault> {
        match self.hear_next(row, number, sink) {
            Ok(true) => Ok(()),
            Ok(false) => {
                self.put(Stage::Over);
                Ok(())
            }
            Err(fault) => Err(fault),
        }
    }

    fn is_broken(&self) -> bool {
        matches!(self, Stage::Over)
    }

    fn has_end(&self) -> bool {
        match self {
            Stage::Early { setup, .. } => setup.has_end(),
            Stage::Late { work } => work.has_end(),
            Stage::Over => false,
        }
    }

    fn end<S: Sink>(&mut self, sink: &mut S) -> Result<(), WriteFault> {
        match self {
            Stage::Early { .. } => {
                self.open();
                self.end_work(sink)
            }
            Stage::Late { work } => work.end(sink),
            Stage::Over => Ok(()),
        }
    }
}
