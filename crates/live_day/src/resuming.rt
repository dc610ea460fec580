//! A run that goes on after a break.
ghost use Rattle.std.specs.Prelude.{◌≡◌, ◌≤◌, ◌+◌, ◌++◌, [], ℕ, List, None, Some, length, refl, IfOk, OnOk};
ghost use Rattle.outside_io.specs.Calls.{Puts};
ghost use Rattle.program_answers.specs.Answers.{illegal_text};
ghost use Rattle.program_answers.specs.LivePrograms.{LiveRun, TellsMore};
ghost use Rattle.live_day.specs.Answers.{longest_input};
ghost use Rattle.live_day.specs.Promises.{Resumes, program_of};
ghost use Rattle.live_day.specs.Resumed.{before_of, told_resumed};
ghost use Rattle.live_day.specs.ResumedEnds.{long_resumed, none_resumed, own_resumed};
ghost use Rattle.live_day.specs.Resuming.{HasResumed, IsAt, SetsOut, before};
ghost use Rattle.live_day.specs.Running.{RunsIfRoom};

use crate::beginning::{Beginning, beginning_of};
use crate::catching_up::{RunsDay, catch_up, go_on};
use crate::hearer::Hearer;
use crate::kept_input::{KeptInput, LONGEST_RESUMED};
use crate::listening::LiveDay;
use crate::refusals::put_bad;
use crate::stage::Stage as DayStage;
use batch_records::DayCode;
use itoa::Buffer;
use outside_io::{Port, Sink, WriteFault, put_fields};
use program_answers::{Listener, listen};
use std::alloc::Global;

// How far a run that goes on has come.
#[derive(Clone, Copy)]
enum Stage {
    // What the run before it had read and written isn't whole yet.
    Reads,
    // A header isn't so.
    NoHeader,
    // What was written isn't what that run was to write: this is the line in which it differs.
    Differs(usize),
    // The day goes on.
    GoesOn,
}

/// A run that goes on after a break.
#[derive(Drop)]
pub(crate) struct Resuming<D> {
    day: D,
    // What came first, until it is whole.
    input: KeptInput,
    stage: Stage,
    // How many bytes have come.
    size: usize,
}

// Writes in which line a text differs from what it was to be.
fn put_line<S: Sink>(line: usize, sink: &mut S) -> Result<(), WriteFault>
    ensures { Puts (S.state sink.old) (S.state sink.new) (illegal_text line) result }
{
    let mut digits = Buffer::new();
    let fields: [&[u8]; 2] = [b"ILLEGAL", digits.format(line).as_bytes()];
    put_fields(sink, &fields)
}

// Hears what was read before, and what comes from then on, where what was written is what was to be written.
fn set_out<D: RunsDay, S: Sink>(
    day: &mut D,
    read: &[u8],
    written: &[u8],
    rest: &[u8],
    sink: &mut S,
) -> Result<Stage, WriteFault>
    requires first { D.has_heard day.old [] }
    requires within { length read.now ≤ longest_input }
    ensures told { Puts (S.state sink.old) (S.state sink.new)
        (told_resumed (Some (before read.now written.now rest.now))) result }
    ensures at { IfOk result (λ stage. SetsOut (D.has_heard day.new)
        (before read.now written.now rest.now) stage) }
{
    match catch_up(day, read, written, sink)? {
        Some(line) => Ok(Stage::Differs(line)),
        None => {
            go_on(day, rest, sink)?;
            Ok(Stage::GoesOn)
        }
    }
}

impl<D: RunsDay> Resuming<D> {
    /// No byte has come. There is room for the most bytes.
    pub(crate) fn over(day: D, input: KeptInput) -> Resuming<D>
        requires first { D.has_heard day [] }
        requires none { input.bytes.items ≡ [] }
        ensures { HasResumed D.has_heard result [] }
    {
        Resuming {
            day,
            input,
            stage: Stage::Reads,
            size: 0,
        }
    }

    // What the bytes that came first call for.
    fn begin<S: Sink>(&mut self, sink: &mut S) -> Result<Stage, WriteFault>
        requires { D.has_heard self.old.day [] }
        ensures told { (old : List ℕ) → before_of old ≡ None → TellsMore (program_of Resumes) old
            self.old.input.bytes.items (S.state sink.old) (S.state sink.new) result }
        ensures at { IfOk result (λ stage. IsAt (D.has_heard self.new.day) self.old.input.bytes.items
            stage self.old.input.bytes.items) }
        ensures kept { (self.new.input ≡ self.old.input) × (self.new.size ≡ self.old.size) }
    {
        let input = self.input.bytes();
        match beginning_of(input) {
            Beginning::Short => Ok(Stage::Reads),
            Beginning::NoHeader => Ok(Stage::NoHeader),
            Beginning::Whole {
                read,
                read_end,
                written,
                written_end,
            } => set_out(
                &mut self.day,
                &input[read..read_end],
                &input[written..written_end],
                &input[written_end..],
                sink,
            ),
        }
    }
}

impl<D: RunsDay + Drop> Listener for Resuming<D> {
    ghost program = { program_of Resumes };

    ghost has_heard = { HasResumed D.has_heard };

    fn is_settled(&self) -> bool {
        match self.stage {
            Stage::Reads => false,
            Stage::NoHeader | Stage::Differs(_) => true,
            Stage::GoesOn => self.day.is_settled(),
        }
    }

    fn most(&self) -> usize {
        (LONGEST_RESUMED + 1).saturating_sub(self.size)
    }

    fn hear<S: Sink>(&mut self, piece: &[u8], sink: &mut S) -> Result<(), WriteFault> {
        self.size += piece.len();
        match self.stage {
            Stage::Reads => {
                self.input.add(piece);
                self.stage = self.begin(sink)?;
                Ok(())
            }
            Stage::GoesOn => go_on(&mut self.day, piece, sink),
            Stage::NoHeader => Ok(()),
            Stage::Differs(_) => Ok(()),
        }
    }

    fn finish<S: Sink>(self, sink: &mut S) -> Result<u8, WriteFault> {
        match self.stage {
            Stage::Reads | Stage::NoHeader => {
                put_bad(0, DayCode::Cut, sink)?;
                Ok(3)
            }
            Stage::Differs(line) => {
                put_line(line, sink)?;
                Ok(6)
            }
            Stage::GoesOn => self.day.finish(sink),
        }
    }

    ghost own_status = { own_resumed };

    ghost long = { long_resumed };

    ghost none = { none_resumed };
}

impl<D: Hearer + Drop> RunsDay for LiveDay<D> {
    ghost runs = { refl };
}

/// Goes on with a day that a run before had begun.
pub(crate) fn resume<P: Port>(alloc: Global, port: &mut P) -> u8
    ensures { RunsIfRoom (program_of Resumes) (record {
      status = result;
      port = P.state port.old;
      port_after = P.state port.new;
    }) }
{
    let input = match KeptInput::with_room(alloc) {
        Ok(input) => input,
        Err(_) => return 1,
    };
    match DayStage::with_room(alloc) {
        Ok(stage) => listen(Resuming::over(LiveDay::new(stage), input), port),
        Err(_) => 1,
    }
}
