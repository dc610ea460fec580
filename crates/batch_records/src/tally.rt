//! How records are judged and taken on a day that is under way, without memory.

ghost use Rattle.std.specs.Prelude.{◌≡◌, ◌||◌, None, Some, IfErr, IfOk, OnOk, false};
ghost use Rattle.batch_records.specs.Tallies.{IsSmall, States, StatesAs, applies_late, is_full, is_misplaced, is_untimely, late_code, late_code_of, tally_after};
ghost use Rattle.batch_records.specs.Versions.{from_text, info_text, is_no_time, till_text};

use crate::day::{DayCode, Entry, MessageRecord};
use crate::kinds::{
    RecordKind, field, has_bad_amount, has_bad_id, has_bad_name, has_bad_number, has_other_fields,
    has_other_word, is_message, kind_named,
};
use crate::lists::has_entries;
use crate::so_far::is_next_stop;
use crate::stated::{
    answer_from, batch_from, cycle_from, entry_from, objection_from, payment_from, stop_from,
    transfer_from,
};
use crate::versions::{
    from_text, info_text, is_no_time, most_entries, most_entries_of_day, most_messages, till_text,
};
use period_calendar::read_time;
use record_rows::Row;

/// What the records of a day come to for the one after them, once its setup is over: numbers, so that a copy is at hand where
/// records are given up again.
#[derive(Clone, Copy)]
pub struct Tally {
    /// The version of their day.
    pub version: u8,
    /// There was END.
    pub ended: bool,
    /// The last records are a batch and its entries.
    pub in_batch: bool,
    /// The last stop, in seconds from midnight, 0 where there is none.
    pub last_stop: u32,
    /// How many stops there were.
    pub stops: u32,
    /// How many messages there were.
    pub messages: u32,
    /// How many entries there were.
    pub entries: u32,
    /// How many of them the last message has.
    pub last_entries: u32,
}

/// What a record adds to a day.
#[derive(Drop)]
pub enum Piece {
    /// A message, a batch without entries.
    Message(MessageRecord),
    /// An entry of the last message.
    Entry(Entry),
    /// A stop, in seconds from midnight.
    Stop(u32),
    /// END adds nothing.
    End,
}

// The codes of a record in the order in which they are told.
const LATE_CODES: [DayCode; 9] = [
    DayCode::Fields,
    DayCode::Kind,
    DayCode::Place,
    DayCode::Name,
    DayCode::Id,
    DayCode::Number,
    DayCode::Amount,
    DayCode::Time,
    DayCode::Limit,
];

// Whether a time that a batch of this version states is none.
fn states_no_time(version: u8, row: &Row) -> bool
    ensures { result ≡ (is_no_time (info_text version row.now)
        || is_no_time (from_text version row.now) || is_no_time (till_text version row.now)) }
{
    is_no_time(info_text(version, row))
        || is_no_time(from_text(version, row))
        || is_no_time(till_text(version, row))
}

impl Tally {
    #[tactic(auto, unfolding(crate::specs::Tallies::is_misplaced))]
    fn is_misplaced(&self, kind: RecordKind) -> bool
        ensures { result ≡ is_misplaced kind self.now }
    {
        match kind {
            RecordKind::Ver
            | RecordKind::Day
            | RecordKind::As
            | RecordKind::Acc
            | RecordKind::Res => true,
            RecordKind::Ent => self.ended || !self.in_batch,
            _ => self.ended,
        }
    }

    #[tactic(auto, unfolding(crate::specs::Tallies::is_untimely))]
    fn is_untimely(&self, kind: RecordKind, row: &Row) -> bool
        ensures { result ≡ is_untimely kind self.now row.now }
    {
        match kind {
            RecordKind::Bat => states_no_time(self.version, row),
            RecordKind::Tim => !is_next_stop(self.last_stop, read_time(field(row, 1))),
            _ => false,
        }
    }

    #[tactic(auto, unfolding(crate::specs::Tallies::is_full))]
    fn is_full(&self, kind: RecordKind) -> bool
        ensures { result ≡ is_full kind self.now }
    {
        match kind {
            RecordKind::Ent => {
                most_entries(self.version) <= self.last_entries as usize
                    || most_entries_of_day(self.version) <= self.entries as usize
            }
            _ => is_message(kind) && most_messages(self.version) <= self.messages as usize,
        }
    }

    fn applies(&self, kind: RecordKind, code: DayCode, row: &Row) -> bool
        ensures { result ≡ applies_late kind code self.now row.now }
    {
        match code {
            DayCode::Fields => has_other_fields(self.version, kind, row),
            DayCode::Kind => has_other_word(self.version, kind, row),
            DayCode::Place => self.is_misplaced(kind),
            DayCode::Name => has_bad_name(kind, row),
            DayCode::Id => has_bad_id(kind, row),
            DayCode::Number => has_bad_number(self.version, kind, row),
            DayCode::Amount => has_bad_amount(self.version, kind, row),
            DayCode::Time => self.is_untimely(kind, row),
            DayCode::Limit => self.is_full(kind),
            DayCode::Date | DayCode::Closed | DayCode::Twice | DayCode::Setup | DayCode::Cut => {
                false
            }
        }
    }

    fn code_of(&self, kind: RecordKind, row: &Row) -> Option<DayCode>
        ensures { result ≡ late_code_of kind self.now row.now }
    {
        LATE_CODES
            .iter()
            .copied()
            .find(|code| self.applies(kind, *code, row))
    }

    // What a record of this kind states.
    fn stated(&self, kind: RecordKind, row: &Row) -> Piece
        requires { late_code_of kind self.now row.now ≡ None }
        ensures { StatesAs kind self.now row.now result }
    {
        match kind {
            RecordKind::Bat => Piece::Message(batch_from(self.version, self.stops, row)),
            RecordKind::Pay => Piece::Message(payment_from(self.stops, row)),
            RecordKind::Liq => Piece::Message(transfer_from(self.stops, row)),
            RecordKind::Obj => Piece::Message(objection_from(self.stops, row)),
            RecordKind::Cnf => Piece::Message(answer_from(self.stops, row)),
            RecordKind::Cyc => Piece::Message(cycle_from(self.stops, row)),
            RecordKind::Ent => Piece::Entry(entry_from(row)),
            RecordKind::Tim => Piece::Stop(stop_from(row)),
            RecordKind::End => Piece::End,
            RecordKind::Ver => unreachable!(),
            RecordKind::Day => unreachable!(),
            RecordKind::As => unreachable!(),
            RecordKind::Acc => unreachable!(),
            RecordKind::Res => unreachable!(),
        }
    }

    // Counts a piece.
    fn count(&mut self, piece: &Piece)
        requires { IsSmall self.old }
        ensures { self.new ≡ tally_after piece.now self.old }
    {
        match piece {
            Piece::Message(message) => {
                self.messages += 1;
                self.last_entries = 0;
                self.in_batch = has_entries(&message.body);
            }
            Piece::Entry(_) => {
                self.entries += 1;
                self.last_entries += 1;
            }
            Piece::Stop(stop) => {
                self.stops += 1;
                self.last_stop = *stop;
                self.in_batch = false;
            }
            Piece::End => {
                self.ended = true;
                self.in_batch = false;
            }
        }
    }
    /// Takes a record: it gives what the record adds to the day, or the first code that applies to it. At a code all stays. It
    /// takes no memory.
    pub fn take(&mut self, row: &Row) -> Result<Piece, DayCode>
        requires { IsSmall self.old }
        ensures ok { OnOk result (late_code self.old row.now ≡ None) }
        ensures states { IfOk result (λ piece. States self.old row.now piece
            × (self.new ≡ tally_after piece self.old)) }
        ensures code { IfErr result (λ code. (late_code self.old row.now ≡ Some code)
            × (self.new ≡ self.old)) }
        ensures small { IsSmall self.new }
    {
        let kind = match kind_named(field(row, 0)) {
            Some(kind) => kind,
            None => return Err(DayCode::Kind),
        };
        match self.code_of(kind, row) {
            Some(code) => Err(code),
            None => Ok(self.counted(kind, row)),
        }
    }

    // What a record of this kind states, which is counted.
    fn counted(&mut self, kind: RecordKind, row: &Row) -> Piece
        requires small { IsSmall self.old }
        requires fine { late_code_of kind self.old row.now ≡ None }
        ensures states { StatesAs kind self.old row.now result }
        ensures after { self.new ≡ tally_after result self.old }
    {
        let piece = self.stated(kind, row);
        self.count(&piece);
        piece
    }

    /// The open batch has all its entries: none may follow.
    pub fn end_batch(&mut self)
        ensures { self.new ≡ record self.old { in_batch = false } }
    {
        self.in_batch = false;
    }
}
