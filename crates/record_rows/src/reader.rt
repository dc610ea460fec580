//! A reader of records, byte by byte.
ghost use Rattle.std.specs.Prelude.{◌≡◌, ◌∷◌, ◌++◌, [], ℕ, true};
ghost use Rattle.csv.specs.Machine.{is_end};
ghost use Rattle.record_rows.specs.Machine.{Closes, Place, action_of, at_start, comes, gone, is_between, moved, opened, shown, state_of};

use crate::machine::{Action, Stage, is_between, step};
use crate::row::{Field, Row};
use std::marker::Model;
use std::mem;

/// Reads a text record by record, byte by byte, and takes no memory: of each record it keeps as much as a `Row` has room for.
#[derive(Drop)]
pub struct RowReader {
    stage: Stage,
    row: Row,
    field: Field,
}

impl Model for RowReader {
    ghost use Rattle.record_rows.specs.Machine.{Place, state_of};

    ghost Value = { Place };

    ghost view = { λ reader. record {
      state = state_of reader.stage;
      fields = reader.row;
      field = reader.field;
    } };
}

// Whether a byte with this action makes the record whole.
fn ends_record(action: Action) -> bool
    ensures { result ≡ is_end (action_of action) }
{
    matches!(action, Action::EndRecord)
}

impl RowReader {
    /// A reader that has read nothing.
    pub fn new() -> RowReader
        ensures { result ≡ at_start }
    {
        RowReader {
            stage: Stage::Start,
            row: Row::new(),
            field: Field::new(),
        }
    }

    // A record that came whole gives way to the next one.
    fn open(&mut self)
        ensures { self.new ≡ opened self.old }
    {
        if is_between(self.stage) {
            self.row.clear();
            self.field = Field::new();
        }
    }

    // The field that is open ends.
    fn end_field(&mut self)
        ensures { (p : Place) → self.old ≡ shown p
            → self.new ≡ shown (record { state = p.state; fields = p.fields ++ p.field ∷ []; field = [] }) }
    {
        let field = mem::replace(&mut self.field, Field::new());
        self.row.push(field);
    }

    // What a byte does with this action.
    fn act(&mut self, action: Action, b: u8)
        ensures { (p : Place) → self.old ≡ shown p
            → self.new ≡ shown (gone (p.state, action_of action) b p) }
    {
        match action {
            Action::Skip => {}
            Action::Copy => self.field.push(b),
            Action::EndField | Action::EndRecord => self.end_field(),
        }
    }

    /// One byte more of the text. True where it makes a record whole, which `row` then shows until the next byte comes. A record is
    /// whole with its line end outside quotes: CR or LF, where the LF of a pair belongs to the CR before it.
    pub fn feed(&mut self, b: u8) -> bool
        ensures place { (p : Place) → self.old ≡ shown p → self.new ≡ shown (moved b p) }
        ensures row { result ≡ comes self.old.state b }
    {
        self.open();
        let (stage, action) = step(self.stage, b);
        self.act(action, b);
        self.stage = stage;
        ends_record(action)
    }

    /// The text ends. True where a record was open, without its line end, which `row` then shows; also one whose quotes are open. None is
    /// open then.
    pub fn close(&mut self) -> bool
        ensures closes { (p : Place) → self.old ≡ shown p → Closes result p self.new.fields }
        ensures over { is_between self.new.state ≡ true }
    {
        let between = is_between(self.stage);
        if between {
            return false;
        }
        self.end_field();
        self.stage = Stage::Start;
        true
    }

    /// The fields that have ended, of the record that came whole or of the one that is open.
    pub fn row(&self) -> &Row
        ensures { result.now ≡ self.now.fields }
    {
        &self.row
    }
}
