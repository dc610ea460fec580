//! A live day after its setup: what becomes of each record that comes, without memory.

ghost use Rattle.std.specs.Prelude.{◌≡◌, ◌&&◌, ◌||◌, ◌++◌, ◌∷◌, [], None, false, if◌then◌else◌, is_some, not, true};
ghost use Rattle.batch_records.specs.DayRecord.{Day};
ghost use Rattle.batch_records.specs.Made.{is_batch, is_entry, is_late};
ghost use Rattle.batch_records.specs.Records.{Fields};
ghost use Rattle.record_rows.specs.Rows.{kept_row};
ghost use Rattle.live_records.specs.Ears.{AreSpoken, Fits, FitsPiece, GrowsBy, Hears, IsHeard, IsTold, closed, ends_run, refused, unless_open, with_piece};
ghost use Rattle.live_records.specs.Heard.{Heard, Takes, has_end, hear, taken};
ghost use Rattle.live_records.specs.OpenRecord.{with_open};

use crate::kinds::{is_batch, is_batch_body, is_entry};
use crate::opened::OpenBatch;
use batch_records::{Day, DayCode, Entry, MessageRecord, Piece, Tally};
use record_rows::Row;

/// What is said of a record: what it calls for.
#[derive(Clone, Copy, PartialEq, Eq, Debug)]
pub enum Outcome {
    /// Nothing: it is passed over, is END, or belongs to a batch that is still open.
    Nothing,
    /// The last message of the day is taken.
    Takes,
    /// The clock moves to the last stop of the day.
    Stops,
    /// It is refused by a line of its own, with this code.
    Refuses(DayCode),
    /// It is bad, with this code, and ends the run, since the day hasn't begun.
    Breaks(DayCode),
}

/// What is kept of the records of a live day, once its setup is over: numbers, and the batch that is open.
#[derive(Drop)]
pub struct Ear {
    /// The numbers of the accepted records, and of those of the open batch.
    pub tally: Tally,
    /// The numbers of the accepted records alone.
    pub before: Tally,
    /// The batch that is open, if one is.
    pub coming: OpenBatch,
    /// A message or a stop was accepted.
    pub begun: bool,
    /// The last record was a refused one of a batch, or an entry after it that was passed over.
    pub passing: bool,
}

// What is said of a record with this code.
fn refusal(begun: bool, code: DayCode) -> Outcome
    ensures { result ≡ (if begun then Outcome.Refuses code else Outcome.Breaks code) }
{
    if begun {
        Outcome::Refuses(code)
    } else {
        Outcome::Breaks(code)
    }
}

impl Ear {
    // The open batch comes to the day.
    fn close(&mut self, day: &mut Day)
        requires fits { Fits self.old day.old }
        requires some { is_some self.old.coming.batch ≡ true }
        ensures ear { self.new ≡ closed self.old }
        ensures day { day.new ≡ with_open self.old.coming.batch day.old }
        ensures fits { Fits self.new day.new }
    {
        self.coming.move_to(day);
        self.tally.end_batch();
        self.before = self.tally;
    }

    // The open batch comes to the day, where it has come whole.
    fn unless_open(&mut self, day: &mut Day) -> Outcome
        requires { Fits self.old day.old }
        ensures spoken { AreSpoken self.new day.new result (unless_open self.old day.old) }
        ensures fits { Fits self.new day.new }
    {
        if self.coming.is_whole() {
            self.close(day);
            Outcome::Takes
        } else {
            Outcome::Nothing
        }
    }

    // Adds a message, which is counted already.
    fn add_message(&mut self, message: MessageRecord, day: &mut Day) -> Outcome
        requires { FitsPiece (Piece.Message message) self.old day.old }
        ensures spoken { AreSpoken self.new day.new result
            (with_piece (Piece.Message message) self.old day.old) }
        ensures fits { Fits self.new day.new }
    {
        if is_batch_body(&message.body) {
            self.coming.begin(message);
            self.unless_open(day)
        } else {
            day.push_in_room(message);
            self.before = self.tally;
            Outcome::Takes
        }
    }

    // Adds an entry, which is counted already.
    fn add_entry(&mut self, entry: Entry, day: &mut Day) -> Outcome
        requires { FitsPiece (Piece.Entry entry) self.old day.old }
        ensures spoken { AreSpoken self.new day.new result
            (with_piece (Piece.Entry entry) self.old day.old) }
        ensures fits { Fits self.new day.new }
    {
        self.coming.push(entry);
        self.unless_open(day)
    }

    // Adds a stop, which is counted already.
    fn add_stop(&mut self, stop: u32, day: &mut Day) -> Outcome
        requires { FitsPiece (Piece.Stop stop) self.old day.old }
        ensures spoken { AreSpoken self.new day.new result
            (with_piece (Piece.Stop stop) self.old day.old) }
        ensures fits { Fits self.new day.new }
    {
        day.stop_in_room(stop);
        self.before = self.tally;
        Outcome::Stops
    }

    // Adds what a record states, which is counted already.
    fn add(&mut self, piece: Piece, day: &mut Day) -> Outcome
        requires { FitsPiece piece self.old day.old }
        ensures spoken { AreSpoken self.new day.new result (with_piece piece self.old day.old) }
        ensures fits { Fits self.new day.new }
    {
        match piece {
            Piece::Message(message) => self.add_message(message, day),
            Piece::Entry(entry) => self.add_entry(entry, day),
            Piece::Stop(stop) => self.add_stop(stop, day),
            Piece::End => {
                self.before = self.tally;
                Outcome::Nothing
            }
        }
    }

    // Refuses a record, and with it the batch that is open.
    fn refuse(&mut self, batch: bool, code: DayCode) -> Outcome
        ensures ear { self.new ≡ refused batch self.old }
        ensures said { result
            ≡ (if self.old.begun then Outcome.Refuses code else Outcome.Breaks code) }
    {
        self.passing = batch || self.coming.is_open();
        self.tally = self.before;
        self.coming.discard();
        refusal(self.begun, code)
    }

    // Whether a record is an entry that is passed over.
    fn passes_over(&self, row: &Row) -> bool
        ensures { result ≡ (self.now.passing && is_entry row.now) }
    {
        self.passing && is_entry(row)
    }

    // Whether a record is an entry, or no batch is open, so that none ends before it.
    fn goes_on(&self, row: &Row) -> bool
        ensures { result ≡ (is_entry row.now || not (is_some self.now.coming.batch)) }
    {
        is_entry(row) || !self.coming.is_open()
    }

    // Hears a record after the setup, and no other than an entry while a batch is open.
    fn step(&mut self, row: &Row, day: &mut Day) -> Outcome
        requires fits { Fits self.old day.old }
        requires shut { is_entry row.now ≡ false → self.old.coming.batch ≡ None }
        ensures heard { Hears row.now self.old day.old result self.new day.new }
        ensures fits { Fits self.new day.new }
    {
        if self.passes_over(row) {
            return Outcome::Nothing;
        }
        self.passing = false;
        match self.tally.take(row) {
            Ok(piece) => {
                self.begun = true;
                self.add(piece, day)
            }
            Err(code) => self.refuse(is_batch(row), code),
        }
    }

    /// Whether END was accepted: then the day is complete once its input ends.
    pub fn has_end(&self) -> bool
        ensures { (h : Heard) (day : Day) → IsHeard h self.now day → result ≡ has_end h }
    {
        self.before.ended
    }

    /// Ends the open batch in front of a record that is no entry: it comes to the day as its last message, which is to be taken
    /// before that record is heard. True where that is so; else all stays. Takes no memory.
    pub fn end_batch(&mut self, row: &Row, day: &mut Day) -> bool
        requires { Fits self.old day.old }
        ensures ended { (h : Heard) (r : Fields) → row.now ≡ kept_row r
            → IsHeard h self.old day.old → result ≡ true
            → IsHeard (taken h) self.new day.new
            × ((taken h).calls ≡ h.calls ++ Takes ∷ [])
            × (hear h r ≡ hear (taken h) r) }
        ensures day { result ≡ true → GrowsBy Outcome.Takes day.old day.new }
        ensures stays { result ≡ false → (self.new ≡ self.old) × (day.new ≡ day.old) }
        ensures shut { is_entry row.now ≡ false → self.new.coming.batch ≡ None }
        ensures begun { self.new.begun ≡ self.old.begun }
        ensures fits { Fits self.new day.new }
    {
        if self.goes_on(row) {
            return false;
        }
        self.close(day);
        true
    }

    /// Hears a record after the setup: what it calls for. Until the day has begun, that is one of a message, or a stop. A batch that is
    /// open has to be ended (`end_batch`) before a record that is no entry. Takes no memory.
    pub fn hear(&mut self, row: &Row, day: &mut Day) -> Outcome
        requires fits { Fits self.old day.old }
        requires late { (self.old.begun || is_late row.now) ≡ true }
        requires shut { is_entry row.now ≡ false → self.old.coming.batch ≡ None }
        ensures told { (h : Heard) (r : Fields) → row.now ≡ kept_row r
            → IsHeard h self.old day.old → IsTold h r result self.new day.new }
        ensures day { GrowsBy result day.old day.new }
        ensures begun { ends_run result ≡ false → self.new.begun ≡ true }
        ensures goes { self.old.begun ≡ true → ends_run result ≡ false }
        ensures fits { Fits self.new day.new }
    {
        self.step(row, day)
    }
}
