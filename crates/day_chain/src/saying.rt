//! The answers that are given, each with its status.
ghost use Rattle.std.specs.Prelude.{◌≡◌, ◌<◌, ℕ, List, length};
ghost use Rattle.batch_records.specs.DayRecord.{Day};
ghost use Rattle.program_answers.specs.Giving.{Says};
ghost use Rattle.day_chain.specs.Answers.{apart, longest_input, refused, whole};
ghost use Rattle.day_chain.specs.ChainTexts.{usage_text};
ghost use Rattle.day_chain.specs.Ledgers.{Stands};

use crate::joining::JoinFault;
use crate::ledger::Ledger;
use crate::statements::put_end;
use crate::text::{put_fault, put_refusal, put_usage};
use batch_records::DayCode;
use outside_io::Sink;
use program_answers::status_after;

/// Refuses the day after so many.
pub fn refuse<S: Sink>(count: u32, number: u32, code: DayCode, output: &mut S) -> u8
    requires { count < longest_input }
    ensures { (told : List Day) → count ≡ length told
        → Says (S.state output.old) (S.state output.new) (refused told (number, code)) result }
{
    status_after(3, put_refusal(count + 1, number, code, output))
}

/// Says that the day after so many doesn't join.
pub fn say_apart<S: Sink>(count: u32, fault: JoinFault, output: &mut S) -> u8
    requires { count < longest_input }
    ensures { (told : List Day) → count ≡ length told
        → Says (S.state output.old) (S.state output.new) (apart told fault) result }
{
    status_after(8, put_fault(count + 1, fault, output))
}

/// Refuses words.
pub fn refuse_words<S: Sink>(output: &mut S) -> u8
    ensures { Says (S.state output.old) (S.state output.new) (record {
      status = 2;
      text = usage_text;
    }) result }
{
    status_after(2, put_usage(output))
}

/// Writes the statements over all days.
pub fn end_chain<S: Sink>(ledger: &Ledger, output: &mut S) -> u8
    requires stands { (told : List Day) × Stands told ledger.now }
    ensures { (told : List Day) → Stands told ledger.now
        → Says (S.state output.old) (S.state output.new) (whole told) result }
{
    status_after(0, put_end(ledger, output))
}
