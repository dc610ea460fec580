//! The texts that several programs write.
ghost use Rattle.std.specs.Prelude.{◌≡◌};
ghost use Rattle.outside_io.specs.Calls.{Puts};
ghost use Rattle.program_answers.specs.Answers.{day_code_text, illegal_text, ok_text, refusal_text, size_text};

use batch_records::DayCode;
use cash_amounts::LinePlace;
use itoa::Buffer;
use outside_io::{Sink, WriteFault, put_fields};

/// The word for why a record of a day file is refused.
pub fn code_text(code: DayCode) -> &'static [u8]
    ensures { result.now ≡ day_code_text code }
{
    match code {
        DayCode::Fields => b"FIELDS",
        DayCode::Kind => b"KIND",
        DayCode::Place => b"PLACE",
        DayCode::Date => b"DATE",
        DayCode::Closed => b"CLOSED",
        DayCode::Name => b"NAME",
        DayCode::Id => b"ID",
        DayCode::Number => b"NUMBER",
        DayCode::Amount => b"AMOUNT",
        DayCode::Time => b"TIME",
        DayCode::Twice => b"TWICE",
        DayCode::Setup => b"SETUP",
        DayCode::Limit => b"LIMIT",
        DayCode::Cut => b"CUT",
    }
}

/// Writes which record of a day file is refused, and why.
pub(crate) fn put_refusal<S: Sink>(
    number: u32,
    code: DayCode,
    sink: &mut S,
) -> Result<(), WriteFault>
    ensures { Puts (S.state sink.old) (S.state sink.new) (refusal_text number code) result }
{
    let mut digits = Buffer::new();
    let fields: [&[u8]; 3] = [b"E", digits.format(number).as_bytes(), code_text(code)];
    put_fields(sink, &fields)
}

/// Writes that the input is too long.
pub(crate) fn put_size<S: Sink>(sink: &mut S) -> Result<(), WriteFault>
    ensures { Puts (S.state sink.old) (S.state sink.new) size_text result }
{
    let fields: [&[u8]; 3] = [b"E", b"0", b"SIZE"];
    put_fields(sink, &fields)
}

/// Writes at which place a journal goes wrong.
pub fn put_illegal<S: Sink>(place: LinePlace, sink: &mut S) -> Result<(), WriteFault>
    ensures { Puts (S.state sink.old) (S.state sink.new) (illegal_text place) result }
{
    let mut digits = Buffer::new();
    let fields: [&[u8]; 2] = [b"ILLEGAL", digits.format(place).as_bytes()];
    put_fields(sink, &fields)
}

/// Writes that all is well, and of how many lines, messages or days.
pub fn put_ok<S: Sink>(count: u32, sink: &mut S) -> Result<(), WriteFault>
    ensures { Puts (S.state sink.old) (S.state sink.new) (ok_text count) result }
{
    let mut digits = Buffer::new();
    let fields: [&[u8]; 2] = [b"OK", digits.format(count).as_bytes()];
    put_fields(sink, &fields)
}
