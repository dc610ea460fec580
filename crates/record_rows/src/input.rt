//! A reader of an input, byte by byte.
ghost use Rattle.std.specs.Prelude.{◌≡◌, ◌<◌, ◌≤◌, ◌+◌, ◌^◌, ◌∷◌, ◌++◌, [], List, ℕ, true, if◌then◌else◌};
ghost use Rattle.record_rows.specs.Input.{Came, Seen, ends_mark, mark_after, place_of, rows_read, seen};
ghost use Rattle.record_rows.specs.Machine.{Closes, is_between, shown};

use crate::line::{Line, line_after};
use crate::reader::RowReader;
use crate::row::Row;
use std::marker::Model;

/// How much of a byte order mark an input is so far.
#[derive(Clone, Copy)]
pub(crate) enum Mark {
    /// It has no byte.
    Begun,
    /// The first byte of one.
    First,
    /// The first two.
    Second,
    /// It has more bytes, or is no front of one.
    Past,
}

// How much of a byte order mark an input is with one byte more.
fn mark_after(mark: Mark, b: u8) -> Mark
    ensures { result ≡ mark_after mark b }
{
    match mark {
        Mark::Begun => { if b == 0xEF { Mark::First } else { Mark::Past } }
        Mark::First => { if b == 0xBB { Mark::Second } else { Mark::Past } }
        Mark::Second | Mark::Past => Mark::Past,
    }
}

// Whether a byte ends a byte order mark.
fn ends_mark(mark: Mark, b: u8) -> bool
    ensures { result ≡ ends_mark mark b }
{
    match mark {
        Mark::Second => b == 0xBF,
        _ => false,
    }
}

/// Reads an input record by record, byte by byte, and takes no memory. A byte order mark at its start is no part of a record.
/// It also follows the lines by raw bytes, to find the one that is END and nothing else.
#[derive(Drop)]
pub struct InputReader {
    rows: RowReader,
    mark: Mark,
    line: Line,
    whole: u64,
}

impl Model for InputReader {
    ghost use Rattle.record_rows.specs.Input.{Seen};

    ghost Value = { Seen };

    ghost view = { λ reader. record {
      place = reader.rows;
      mark = reader.mark;
      line = reader.line;
      whole = reader.whole;
    } };
}

// One, where a record came whole.
fn one_if(came: bool) -> u64
    ensures value { result ≡ (if came then 1 else 0) }
    ensures few { result ≤ 1 }
{
    if came { 1 } else { 0 }
}

impl InputReader {
    /// A reader that has read nothing.
    pub fn new() -> InputReader
        ensures { result ≡ seen [] }
    {
        InputReader {
            rows: RowReader::new(),
            mark: Mark::Begun,
            line: Line::Begun,
            whole: 0,
        }
    }

    // The records after a byte; after a mark they begin.
    fn read(&mut self, b: u8) -> bool
        ensures others { self.new ≡ record self.old { place = self.new.place } }
        ensures place { (input : List ℕ) → self.old ≡ seen input
            → self.new.place ≡ shown (place_of (input ++ b ∷ [])) }
        ensures row { (input : List ℕ) → self.old ≡ seen input
            → Came result (rows_read input) (rows_read (input ++ b ∷ [])) self.new.place.fields }
    {
        if ends_mark(self.mark, b) {
            self.rows = RowReader::new();
            false
        } else {
            self.rows.feed(b)
        }
    }

    /// One byte more of the input. True where it makes a record whole, which `row` then shows until the next byte comes. The
    /// count of whole records has to have room for one more.
    pub fn feed(&mut self, b: u8) -> bool
        requires { self.old.whole + 1 < 2 ^ 64 }
        ensures seen { (input : List ℕ) → self.old ≡ seen input → self.new ≡ seen (input ++ b ∷ []) }
        ensures row { (input : List ℕ) → self.old ≡ seen input
            → Came result (rows_read input) (rows_read (input ++ b ∷ [])) self.new.place.fields }
    {
        let came = self.read(b);
        self.mark = mark_after(self.mark, b);
        self.line = line_after(self.line, b);
        self.whole += one_if(came);
        came
    }

    /// The input ends. True where a record was open, without its line end, which `row` then shows.
    pub fn close(&mut self) -> bool
        ensures closes { (input : List ℕ) → self.old ≡ seen input
            → Closes result (place_of input) self.new.place.fields }
        ensures over { is_between self.new.place.state ≡ true }
    {
        self.rows.close()
    }

    /// The record that came whole with the last byte: of its first sixteen fields the first 64 bytes.
    pub fn row(&self) -> &Row
        ensures { result.now ≡ self.now.place.fields }
    {
        self.rows.row()
    }

    /// How many records came whole.
    pub fn whole(&self) -> u64
        ensures { result ≡ self.now.whole }
    {
        self.whole
    }

    /// The line in which the input is: `Over` once one was END and nothing else, and `HasEND` where this one is, should the input
    /// end here.
    pub fn line(&self) -> Line
        ensures { result ≡ self.now.line }
    {
        self.line
    }
}
