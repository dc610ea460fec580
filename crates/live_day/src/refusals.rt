//! The lines of bad records.
ghost use Rattle.outside_io.specs.Calls.{Puts};
ghost use Rattle.program_answers.specs.Answers.{refusal_text};
ghost use Rattle.live_day.specs.Told.{refused_text};

use batch_records::DayCode;
use itoa::Buffer;
use outside_io::{Sink, WriteFault, put_fields};
use program_answers::code_text;

/// Writes which record ends the run, and why.
pub(crate) fn put_bad<S: Sink>(number: u64, code: DayCode, sink: &mut S) -> Result<(), WriteFault>
    ensures { Puts (S.state sink.old) (S.state sink.new) (refusal_text number code) result }
{
    let mut digits = Buffer::new();
    let fields: [&[u8]; 3] = [b"E", digits.format(number).as_bytes(), code_text(code)];
    put_fields(sink, &fields)
}

/// Writes which record is refused, and why, where the day goes on.
pub(crate) fn put_refused<S: Sink>(
    number: u64,
    code: DayCode,
    sink: &mut S,
) -> Result<(), WriteFault>
    ensures { Puts (S.state sink.old) (S.state sink.new) (refused_text number code) result }
{
    let mut digits = Buffer::new();
    let fields: [&[u8]; 3] = [b"R", digits.format(number).as_bytes(), code_text(code)];
    put_fields(sink, &fields)
}
