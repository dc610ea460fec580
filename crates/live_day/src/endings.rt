//! How a live day ends, and what is told of that.
ghost use Rattle.std.specs.Prelude.{◌≡◌, IfOk};
ghost use Rattle.live_day.specs.Endings.{ending_status, ending_text};
ghost use Rattle.outside_io.specs.Calls.{Puts};
ghost use Rattle.program_answers.specs.Answers.{size_text};

use crate::refusals::put_bad;
use batch_records::DayCode;
use outside_io::{Sink, WriteFault, put_fields};

/// How an input ends, where nothing that follows changes the answer to it.
#[derive(Clone, Copy)]
pub(crate) enum Ending {
    /// A bad record ended the run.
    Broken,
    /// The input has ended, and END was accepted.
    Complete,
    /// The input has ended without END, and this would be the number of its next record.
    Cut(u64),
    /// More bytes came than an input may have.
    TooLong,
}

// Writes that the input is too long.
fn put_size<S: Sink>(sink: &mut S) -> Result<(), WriteFault>
    ensures { Puts (S.state sink.old) (S.state sink.new) size_text result }
{
    let fields: [&[u8]; 3] = [b"E", b"0", b"SIZE"];
    put_fields(sink, &fields)
}

/// Writes what is told of an end after all else, and gives the status.
pub(crate) fn put_ending<S: Sink>(ending: Ending, sink: &mut S) -> Result<u8, WriteFault>
    ensures text { Puts (S.state sink.old) (S.state sink.new) (ending_text ending) result }
    ensures status { IfOk result (λ status. status ≡ ending_status ending) }
{
    match ending {
        Ending::Broken => Ok(3),
        Ending::Complete => Ok(0),
        Ending::Cut(number) => {
            put_bad(number, DayCode::Cut, sink)?;
            Ok(3)
        }
        Ending::TooLong => {
            put_size(sink)?;
            Ok(7)
        }
    }
}
