//! A line that a day tells, byte by byte.
ghost use Rattle.std.specs.Prelude.{◌≡◌, ◌<◌, ◌++◌, ◌∷◌, [], List, ℕ, IfOk, None, OnOk, length};
ghost use Rattle.outside_io.specs.Calls.{Puts};
ghost use Rattle.outside_io.specs.TextLine.{line_feed};
ghost use Rattle.party_gate.specs.Holding.{Keeps};
ghost use Rattle.party_gate.specs.Passing.{end_ahead, end_with, longest_line, passed};

use crate::passing::{Ending, LONGEST_LINE, Whose, whose_is};
use arrayvec::ArrayVec;
use cash_amounts::Name;
use outside_io::{Sink, WriteFault, put_all};

/// A party, and as much of the line that is open as one may have that is passed on to it.
#[derive(Drop)]
pub(crate) struct LineKeeper {
    name: Name,
    line: ArrayVec<u8, 4096>,
}

impl LineKeeper {
    /// No line is open.
    pub fn new(name: Name) -> LineKeeper
        ensures name { result.name ≡ name }
        ensures none { Keeps result [] }
    {
        LineKeeper {
            name,
            line: ArrayVec::new(),
        }
    }

    // Passes on the line that is kept, which has its line feed. How what is told ends, where it does so with it.
    fn pass<S: Sink>(&self, sink: &mut S) -> Result<Option<Ending>, WriteFault>
        ensures told { Puts (S.state sink.old) (S.state sink.new)
            (passed self.now.name self.now.line.items) result }
        ensures ending { IfOk result (λ e. e ≡ end_with self.now.name self.now.line.items) }
    {
        let line = self.line.as_slice();
        match whose_is(self.name.as_bytes(), line) {
            Whose::Others => Ok(None),
            Whose::Own => {
                put_all(sink, line)?;
                Ok(None)
            }
            Whose::Last => {
                put_all(sink, line)?;
                Ok(Some(Ending::Last))
            }
        }
    }

    // The same of a line that has come but for its line feed. No line is open then.
    fn end_short<S: Sink>(&mut self, sink: &mut S) -> Result<Option<Ending>, WriteFault>
        requires { length self.old.line.items < longest_line }
        ensures told { Puts (S.state sink.old) (S.state sink.new)
            (passed self.old.name (self.old.line.items ++ line_feed ∷ [])) result }
        ensures ending { IfOk result (λ e. e
            ≡ end_with self.old.name (self.old.line.items ++ line_feed ∷ [])) }
        ensures none { OnOk result (self.new.line.items ≡ []) }
        ensures name { self.new.name ≡ self.old.name }
    {
        self.line.push(b'\n');
        let ending = self.pass(sink)?;
        self.line.clear();
        Ok(ending)
    }

    /// The line has its line feed: passes it on, where it is the party's or the last. How what is told ends, where it does so with it.
    pub fn end<S: Sink>(&mut self, sink: &mut S) -> Result<Option<Ending>, WriteFault>
        ensures told { (begun : List ℕ) → Keeps self.old begun
            → Puts (S.state sink.old) (S.state sink.new)
            (passed self.old.name (begun ++ line_feed ∷ [])) result }
        ensures ending { (begun : List ℕ) → Keeps self.old begun
            → IfOk result (λ e. e ≡ end_with self.old.name (begun ++ line_feed ∷ [])) }
        ensures none { OnOk result (self.new.line.items ≡ []) }
        ensures name { self.new.name ≡ self.old.name }
    {
        if self.line.is_full() {
            self.line.clear();
            return Ok(None);
        }
        self.end_short(sink)
    }

    // How what is told ends by a line that is already longer than one may be, unless it is others'.
    fn end_ahead(&self) -> Option<Ending>
        ensures { result ≡ end_ahead self.now.name self.now.line.items }
    {
        let line = self.line.as_slice();
        if line.len() < LONGEST_LINE {
            return None;
        }
        match whose_is(self.name.as_bytes(), line) {
            Whose::Others => None,
            Whose::Own => Some(Ending::Long),
            Whose::Last => Some(Ending::Long),
        }
    }

    /// One byte more of the line, which is no line feed. How what is told ends, where the line is already too long.
    pub fn add(&mut self, b: u8) -> Option<Ending>
        ensures ending { (begun : List ℕ) → Keeps self.old begun
            → result ≡ end_ahead self.old.name (begun ++ b ∷ []) }
        ensures next { (begun : List ℕ) → Keeps self.old begun
            → result ≡ None → Keeps self.new (begun ++ b ∷ []) }
        ensures name { self.new.name ≡ self.old.name }
    {
        if self.line.is_full() {
            return None;
        }
        self.line.push(b);
        self.end_ahead()
    }
}
