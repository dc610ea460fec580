//! A live day that listens to its input, piece by piece.
ghost use Rattle.std.specs.Prelude.{◌≡◌, ◌≤◌, ◌+◌, ◌∷◌, ◌++◌, [], List, IfOk, OnOk, length, ℕ};
ghost use Rattle.live_day.specs.Ends.{long_settles, none_told, own_status};
ghost use Rattle.live_day.specs.Answers.{longest_input};
ghost use Rattle.live_day.specs.Listened.{HasListened, Stands, TellsLast};
ghost use Rattle.live_day.specs.Promises.{Runs, program_of};
ghost use Rattle.program_answers.specs.LivePrograms.{Finishes, LiveProgram, MayHear, TellsMore};

use crate::endings::{Ending, put_ending};
use crate::hearer::Hearer;
use crate::reading::DayReader;
use outside_io::{Sink, WriteFault};
use program_answers::{Listener, MAX_INPUT};

/// A live day whose input comes piece by piece.
#[derive(Drop)]
pub(crate) struct LiveDay<D> {
    reader: DayReader<D>,
    // How many bytes have come.
    size: usize,
    // How they end, where nothing that follows changes the answer.
    ending: Option<Ending>,
}

impl<D: Hearer> LiveDay<D> {
    /// No byte has come.
    pub fn new(day: D) -> LiveDay<D>
        requires { D.has_heard day [] }
        ensures { HasListened D.has_heard result [] }
    {
        LiveDay {
            reader: DayReader::new(day),
            size: 0,
            ending: None,
        }
    }

    // How the bytes end with one more, which this one is.
    fn next_ending<S: Sink>(&mut self, b: u8, sink: &mut S) -> Result<Option<Ending>, WriteFault>
        requires { (input : List ℕ) × HasListened D.has_heard self.old input }
        ensures told { (input : List ℕ) → HasListened D.has_heard self.old input
            → TellsMore (program_of Runs) input (input ++ b ∷ []) (S.state sink.old) (S.state sink.new) result }
        ensures stands { (input : List ℕ) → HasListened D.has_heard self.old input
            → IfOk result (λ ending. Stands D.has_heard ending self.new.reader (input ++ b ∷ [])) }
        ensures size { self.new.size ≡ self.old.size }
    {
        if self.ending.is_some() {
            return Ok(self.ending);
        }
        if self.size == MAX_INPUT {
            return Ok(Some(Ending::TooLong));
        }
        self.reader.take(b, sink)
    }

    // How the bytes end, where no more come: hears what is whole then, and makes and tells the rest.
    fn last_ending<S: Sink>(&mut self, sink: &mut S) -> Result<Ending, WriteFault>
        requires { (input : List ℕ) × HasListened D.has_heard self.old input }
        ensures { (input : List ℕ) → HasListened D.has_heard self.old input
            → TellsLast input (S.state sink.old) (S.state sink.new) result }
    {
        match self.ending {
            Some(ending) => Ok(ending),
            None => self.reader.finish(sink),
        }
    }

    // One byte more.
    fn take<S: Sink>(&mut self, b: u8, sink: &mut S) -> Result<(), WriteFault>
        requires { (input : List ℕ) × HasListened D.has_heard self.old input
            × (length input ≤ longest_input) }
        ensures told { (input : List ℕ) → HasListened D.has_heard self.old input
            → TellsMore (program_of Runs) input (input ++ b ∷ []) (S.state sink.old) (S.state sink.new) result }
        ensures heard { (input : List ℕ) → HasListened D.has_heard self.old input
            → OnOk result (HasListened D.has_heard self.new (input ++ b ∷ [])) }
    {
        self.ending = self.next_ending(b, sink)?;
        self.size += 1;
        Ok(())
    }
}

impl<D: Hearer + Drop> Listener for LiveDay<D> {
    ghost program = { program_of Runs };

    ghost has_heard = { HasListened D.has_heard };

    fn is_settled(&self) -> bool {
        self.ending.is_some()
    }

    fn most(&self) -> usize {
        (MAX_INPUT + 1).saturating_sub(self.size)
    }

    fn hear<S: Sink>(&mut self, piece: &[u8], sink: &mut S) -> Result<(), WriteFault> {
        for b in piece {
            self.take(*b, sink)?;
        }
        Ok(())
    }

    fn finish<S: Sink>(mut self, sink: &mut S) -> Result<u8, WriteFault> {
        let ending = self.last_ending(sink)?;
        put_ending(ending, sink)
    }

    ghost own_status = { own_status };

    ghost long = { long_settles };

    ghost none = { none_told };
}
