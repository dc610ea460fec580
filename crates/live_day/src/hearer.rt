//! Who hears the records of a live day one by one.
ghost use Rattle.std.specs.Prelude.{◌≡◌, ◌∷◌, ◌++◌, [], List, OnOk, false, ℕ};
ghost use Rattle.batch_records.specs.Records.{Fields};
ghost use Rattle.live_day.specs.NextRecord.{HasEnd, IsNext};
ghost use Rattle.live_day.specs.Told.{told_end};
ghost use Rattle.live_day.specs.Working.{TellsRow};
ghost use Rattle.live_records.specs.Heard.{day_of, has_end, heard};
ghost use Rattle.outside_io.specs.Calls.{Puts};

use outside_io::{Sink, WriteFault};
use record_rows::Row;

/// Hears the records of a live day one by one, and makes and tells at once what each calls for. Takes no memory.
pub(crate) trait Hearer {
    /// That these records were heard, and all is made and told that they call for.
    ghost has_heard: { Self → List Fields → Type 0 };

    /// Hears the record that comes, which has this number, and tells what it calls for. At an error a write failed, and a front of that
    /// was written; nothing more is heard then.
    fn hear<S: Sink>(&mut self, row: &Row, number: u64, sink: &mut S) -> Result<(), WriteFault>
        requires { (records : List Fields) × (r : Fields) × has_heard self.old records
            × IsNext records r row.now number }
        ensures told { (records : List Fields) (r : Fields) → has_heard self.old records
            → IsNext records r row.now number
            → (text : List ℕ) × TellsRow records r text
            × Puts (S.state sink.old) (S.state sink.new) text result }
        ensures heard { (records : List Fields) (r : Fields) → has_heard self.old records
            → IsNext records r row.now number
            → OnOk result (has_heard self.new (records ++ r ∷ [])) };

    /// Whether a bad record ended the run. None is heard then.
    fn is_broken(&self) -> bool
        ensures { (records : List Fields) → has_heard self.now records
            → result ≡ (heard records).broken };

    /// Whether END was accepted.
    fn has_end(&self) -> bool
        ensures { (records : List Fields) → has_heard self.now records
            → (heard records).broken ≡ false → result ≡ has_end (heard records) };

    /// The day is over, and END was accepted: makes and tells the rest, and then what each account holds and how many lines there
    /// are. At an error a write failed, and a front of that was written. Nothing is heard after it.
    fn end<S: Sink>(&mut self, sink: &mut S) -> Result<(), WriteFault>
        requires { (records : List Fields) × has_heard self.old records × HasEnd records }
        ensures { (records : List Fields) → has_heard self.old records → HasEnd records
            → Puts (S.state sink.old) (S.state sink.new) (told_end (day_of (heard records)))
            result };
}
