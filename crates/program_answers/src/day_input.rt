//! An input that is a day with something after it.
ghost use Rattle.std.specs.Prelude.{◌≡◌, ◌≤◌, ℕ, IfErr, IfOk, drop, length, true};
ghost use Rattle.batch_records.specs.Counts.{record_count};
ghost use Rattle.batch_records.specs.DayAnswers.{Tells};
ghost use Rattle.batch_records.specs.DayPart.{is_line_ends};
ghost use Rattle.batch_records.specs.Days.{day_of_bytes};
ghost use Rattle.batch_records.specs.Meets.{MeetsRules};
ghost use Rattle.batch_records.specs.Records.{day_records};
ghost use Rattle.batch_records.specs.Sound.{is_sound};
ghost use Rattle.program_answers.specs.Inputs.{IsGiven};

use batch_records::{Day, DayFault, is_blank, read_day};
use std::alloc::Global;
use std::marker::Model;

/// What follows the day of an input. It holds the whole input: where it is dropped, the memory of all that was read is free.
/// Contracts see the bytes that follow.
#[derive(Drop)]
pub struct Rest {
    input: Vec<u8>,
    start: usize,
}

impl Model for Rest {
    ghost use Rattle.std.specs.Prelude.{◌≤◌, List, drop, length, ℕ};

    ghost Value = { List ℕ };

    ghost view = { λ rest. drop rest.start rest.input.items };

    ghost invariant = { λ rest. rest.start ≤ length rest.input.items };
}

// A text from a place on.
fn from(text: &[u8], start: usize) -> &[u8]
    requires { start ≤ length text.now }
    ensures { result.now ≡ drop start text.now }
{
    &text[start..]
}

impl Rest {
    /// The bytes.
    pub fn as_slice(&self) -> &[u8]
        ensures { result.now ≡ self.now }
    {
        from(self.input.as_slice(), self.start)
    }

    /// Whether it is line ends alone. The input is let go.
    pub fn is_blank(self) -> bool
        ensures { result ≡ is_line_ends self }
    {
        is_blank(self.as_slice())
    }
}

/// Reads the day at the front of an input, and keeps what follows it. It is refused as `read_day` of `batch_records` says, and
/// the input is let go then.
pub fn read_input(alloc: Global, input: Vec<u8>) -> Result<(Day, Rest), DayFault>
    ensures given { IfOk result (λ read. (longest : ℕ) → length input.items ≤ longest
        → IsGiven longest input.items read.0 read.1) }
    ensures sound { IfOk result (λ read. is_sound read.0 ≡ true) }
    ensures within { IfOk result (λ read. length read.1 ≤ length input.items) }
    ensures count { IfOk result (λ read. length (day_records input.items)
        ≡ record_count read.0) }
    ensures meets { IfOk result (λ read. MeetsRules read.0) }
    ensures fault { IfErr result (λ fault. Tells fault (day_of_bytes input.items)) }
{
    match read_day(alloc, input.as_slice()) {
        Ok((day, start)) => Ok((day, Rest { input, start })),
        Err(fault) => Err(fault),
    }
}
