//! The records of an input, which a live day hears as they come.
ghost use Rattle.std.specs.Prelude.{◌≡◌, ◌<◌, ◌≤◌, ◌+◌, ◌^◌, ◌∷◌, ◌++◌, [], List, IfOk, OnOk, false, length, ℕ};
ghost use Rattle.batch_records.specs.Records.{Fields};
ghost use Rattle.live_day.specs.Answers.{longest_input};
ghost use Rattle.live_day.specs.Endings.{ending_of};
ghost use Rattle.live_day.specs.Listened.{HasRead, HasReadOne, HasRecords, IsOpen, Stands, TellsEnd, TellsOn, TellsRest, all_rows, closed_rows, is_last};
ghost use Rattle.live_day.specs.NextRecord.{IsNext, told_last};
ghost use Rattle.live_day.specs.Promises.{Runs, program_of};
ghost use Rattle.program_answers.specs.LivePrograms.{TellsMore};
ghost use Rattle.live_records.specs.Heard.{heard};
ghost use Rattle.live_records.specs.WholeRecords.{is_over};
ghost use Rattle.outside_io.specs.Calls.{Puts};
ghost use Rattle.record_rows.specs.Input.{rows_read};

use crate::endings::Ending;
use crate::hearer::Hearer;
use outside_io::{Sink, WriteFault};
use record_rows::{InputReader, Line};

// Whether a line END has come with its line end.
fn is_over(line: Line) -> bool
    ensures { result ≡ is_over line }
{
    matches!(line, Line::Over)
}

// Whether an input that ends here ends in a line END.
fn is_last(line: Line) -> bool
    ensures { result ≡ is_last line }
{
    matches!(line, Line::HasEND)
}

/// Reads the records of an input, and has a day hear each as it comes.
#[derive(Drop)]
pub(crate) struct DayReader<D> {
    reader: InputReader,
    day: D,
    // How many records the day has heard.
    count: u64,
}

impl<D: Hearer> DayReader<D> {
    /// A reader that has read nothing, for a day that has heard nothing.
    pub fn new(day: D) -> DayReader<D>
        requires { D.has_heard day [] }
        ensures { HasRead D.has_heard result [] }
    {
        DayReader {
            reader: InputReader::new(),
            day,
            count: 0,
        }
    }

    // The day hears the record that the reader shows.
    fn hear_row<S: Sink>(&mut self, sink: &mut S) -> Result<(), WriteFault>
        requires next { (records : List Fields) × (r : Fields) × D.has_heard self.old.day records
            × IsNext records r self.old.reader.place.fields (self.old.count + 1) }
        requires few { self.old.count + 1 < 2 ^ 64 }
        ensures told { (records : List Fields) (r : Fields) → D.has_heard self.old.day records
            → IsNext records r self.old.reader.place.fields (self.old.count + 1)
            → TellsOn records (records ++ r ∷ []) (S.state sink.old) (S.state sink.new) result }
        ensures heard { (records : List Fields) (r : Fields) → D.has_heard self.old.day records
            → IsNext records r self.old.reader.place.fields (self.old.count + 1)
            → OnOk result (D.has_heard self.new.day (records ++ r ∷ [])) }
        ensures count { self.new.count ≡ self.old.count + 1 }
        ensures same { self.new.reader ≡ self.old.reader }
    {
        self.count += 1;
        self.day.hear(self.reader.row(), self.count, sink)
    }

    // One byte more: where it makes a record whole, the day hears that.
    fn read<S: Sink>(&mut self, b: u8, sink: &mut S) -> Result<(), WriteFault>
        requires { (input : List ℕ) × IsOpen D.has_heard self.old input }
        ensures told { (input : List ℕ) → IsOpen D.has_heard self.old input
            → TellsOn (rows_read input) (rows_read (input ++ b ∷ [])) (S.state sink.old)
            (S.state sink.new) result }
        ensures read { (input : List ℕ) → IsOpen D.has_heard self.old input
            → OnOk result (HasRead D.has_heard self.new (input ++ b ∷ [])) }
    {
        if self.reader.feed(b) {
            return self.hear_row(sink);
        }
        Ok(())
    }

    // The input ends in a line END: the day hears the record that is open there.
    fn close<S: Sink>(&mut self, sink: &mut S) -> Result<(), WriteFault>
        requires { (input : List ℕ) × HasRead D.has_heard self.old input
            × ((heard (rows_read input)).broken ≡ false) × (length input ≤ longest_input) }
        ensures told { (input : List ℕ) → HasRead D.has_heard self.old input
            → (heard (rows_read input)).broken ≡ false
            → TellsOn (rows_read input) (closed_rows input) (S.state sink.old) (S.state sink.new)
            result }
        ensures heard { (input : List ℕ) → HasRead D.has_heard self.old input
            → (heard (rows_read input)).broken ≡ false
            → OnOk result (HasRecords D.has_heard self.new (closed_rows input)) }
    {
        if self.reader.close() {
            return self.hear_row(sink);
        }
        Ok(())
    }

    // The input has ended: where END was accepted, the day makes and tells the rest.
    fn end<S: Sink>(&mut self, sink: &mut S) -> Result<Ending, WriteFault>
        requires heard { (records : List Fields) × HasRecords D.has_heard self.old records }
        requires few { self.old.count + 1 < 2 ^ 64 }
        ensures told { (records : List Fields) → HasRecords D.has_heard self.old records
            → Puts (S.state sink.old) (S.state sink.new) (told_last records) result }
        ensures ending { (records : List Fields) → HasRecords D.has_heard self.old records
            → IfOk result (λ ending. ending ≡ ending_of (heard records)) }
    {
        if self.day.is_broken() {
            return Ok(Ending::Broken);
        }
        if !self.day.has_end() {
            return Ok(Ending::Cut(self.count + 1));
        }
        self.day.end(sink)?;
        Ok(Ending::Complete)
    }

    // The input has ended in a line END.
    fn end_line<S: Sink>(&mut self, sink: &mut S) -> Result<Ending, WriteFault>
        requires { (input : List ℕ) × HasRead D.has_heard self.old input
            × (length input ≤ longest_input) }
        ensures told { (input : List ℕ) → HasRead D.has_heard self.old input
            → TellsEnd (rows_read input) (closed_rows input) (S.state sink.old) (S.state sink.new)
            result }
        ensures ending { (input : List ℕ) → HasRead D.has_heard self.old input
            → IfOk result (λ ending. ending ≡ ending_of (heard (closed_rows input))) }
    {
        if self.day.is_broken() {
            return Ok(Ending::Broken);
        }
        self.close(sink)?;
        self.end(sink)
    }

    /// The input has ended, and not in a line END with its line end: hears what is whole then, and makes and tells the rest, where END was
    /// accepted.
    pub fn finish<S: Sink>(&mut self, sink: &mut S) -> Result<Ending, WriteFault>
        requires { (input : List ℕ) × IsOpen D.has_heard self.old input }
        ensures told { (input : List ℕ) → IsOpen D.has_heard self.old input
            → TellsEnd (rows_read input) (all_rows input) (S.state sink.old) (S.state sink.new)
            result }
        ensures ending { (input : List ℕ) → IsOpen D.has_heard self.old input
            → IfOk result (λ ending. ending ≡ ending_of (heard (all_rows input))) }
    {
        if is_last(self.reader.line()) {
            self.end_line(sink)
        } else {
            self.end(sink)
        }
    }

    // Whether the input has ended with its last byte, or a bad record ended the run.
    fn settle<S: Sink>(&mut self, sink: &mut S) -> Result<Option<Ending>, WriteFault>
        requires { (front : List ℕ) × (b : ℕ) × HasReadOne D.has_heard self.old front b }
        ensures told { (front : List ℕ) (b : ℕ) → HasReadOne D.has_heard self.old front b
            → TellsRest (front ++ b ∷ []) (S.state sink.old) (S.state sink.new) result }
        ensures stands { (front : List ℕ) (b : ℕ) → HasReadOne D.has_heard self.old front b
            → IfOk result (λ ending. Stands D.has_heard ending self.new (front ++ b ∷ [])) }
    {
        if is_over(self.reader.line()) {
            return Ok(Some(self.end_line(sink)?));
        }
        if self.day.is_broken() {
            return Ok(Some(Ending::Broken));
        }
        Ok(None)
    }

    /// One byte more, which isn't too many: hears the record that it makes whole, and tells what that calls for. How the input ends, where
    /// it does so with it.
    pub fn take<S: Sink>(&mut self, b: u8, sink: &mut S) -> Result<Option<Ending>, WriteFault>
        requires { (input : List ℕ) × IsOpen D.has_heard self.old input
            × (length input < longest_input) }
        ensures told { (input : List ℕ) → IsOpen D.has_heard self.old input
            → length input < longest_input
            → TellsMore (program_of Runs) input (input ++ b ∷ []) (S.state sink.old) (S.state sink.new) result }
        ensures stands { (input : List ℕ) → IsOpen D.has_heard self.old input
            → length input < longest_input
            → IfOk result (λ ending. Stands D.has_heard ending self.new (input ++ b ∷ [])) }
    {
        self.read(b, sink)?;
        self.settle(sink)
    }
}
