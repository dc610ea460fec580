//! How an answer is given: its status, and its text handed on.
ghost use Rattle.std.specs.Prelude.{◌≡◌};
ghost use Rattle.outside_io.specs.Gathered.{held, sink_below, through};
ghost use Rattle.program_answers.specs.Answers.{refused, too_long};
ghost use Rattle.program_answers.specs.Giving.{HandsOver, Says, status_after};

use crate::output::{put_refusal, put_size};
use batch_records::DayCode;
use outside_io::{GatheringSink, Sink, WriteFault};

/// The status of an answer, where it was written whole.
pub fn status_after(status: u8, written: Result<(), WriteFault>) -> u8
    ensures { result ≡ status_after status written }
{
    match written {
        Ok(()) => status,
        Err(_) => 5,
    }
}

/// Refuses a record of a day.
pub fn refuse<S: Sink>(number: u32, code: DayCode, output: &mut S) -> u8
    ensures { Says (S.state output.old) (S.state output.new) (refused number code) result }
{
    status_after(3, put_refusal(number, code, output))
}

/// Refuses an input for its size.
pub fn refuse_size<S: Sink>(output: &mut S) -> u8
    ensures { Says (S.state output.old) (S.state output.new) too_long result }
{
    status_after(7, put_size(output))
}

/// Hands on the rest of an answer. After a write that failed nothing is written any more, and where memory was wanting
/// there is nothing to write.
pub fn hand_over<S: Sink>(status: u8, gathering: &mut GatheringSink<'_, S>) -> u8
    ensures same_reference { through gathering.new ≡ through gathering.old }
    ensures handed { HandsOver S.state (sink_below gathering.old) (sink_below gathering.new)
        (held gathering.old) status result }
{
    match status {
        1 | 5 => status,
        _ => status_after(status, gathering.hand_on()),
    }
}
