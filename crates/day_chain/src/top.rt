//! The top call: from the words and the streams to the status.
ghost use Rattle.std.specs.Prelude.{◌≡◌, ◌≤◌, ◌+◌, length};
ghost use Rattle.outside_io.specs.Gathered.{held, sink_below, through};
ghost use Rattle.day_chain.specs.Answers.{HandsOver, longest_input, TellsAll};
ghost use Rattle.day_chain.specs.Promises.{ChainPromises};

use crate::days::take_next;
use crate::ledger::Ledger;
use crate::saying::{end_chain, refuse_words};
use batch_records::is_blank;
use cash_amounts::Words;
use outside_io::{GatheringSink, PIECE, ReadEnd, Sink, Source, read_all};
use program_answers::{MAX_LONG_INPUT, refuse_size, status_after};
use std::alloc::Global;

// Tells the days of an input of no more than the greatest size.
fn answer_bytes<S: Sink>(alloc: Global, bytes: &[u8], output: &mut S) -> u8
    requires { length bytes.now ≤ longest_input }
    ensures { TellsAll bytes.now (S.state output.old) (S.state output.new) result }
{
    let mut ledger = Ledger::new(alloc);
    let mut at = 0;
    'days: loop {
        match take_next(alloc, ledger, &bytes[at..], output) {
            Ok((more, length)) => {
                ledger = more;
                at += length;
            }
            Err(status) => return status,
        }
        if is_blank(&bytes[at..]) {
            return end_chain(&ledger, output);
        }
    }
}

// Hands on the rest of an answer, that of the days before memory was wanting too. After a write that failed nothing is
// written any more.
fn hand_over<S: Sink>(status: u8, gathering: &mut GatheringSink<'_, S>) -> u8
    ensures same_reference { through gathering.new ≡ through gathering.old }
    ensures handed { HandsOver S.state (sink_below gathering.old) (sink_below gathering.new)
        (held gathering.old) status result }
{
    if status == 5 {
        return status;
    }
    status_after(status, gathering.hand_on())
}

/// Does all that the program does, and answers its status. The program takes no words, and reads one day after the other.
///
/// - 0: it was done. The input is one day after the other and nothing but line ends after the last; each day joins the one
///   before it; and each was written with its journal, and then a statement of each account for each year;
/// - 1: memory was wanting, and some days at the front were written, or none, and nothing more;
/// - 2: there are words, and the usage line was written;
/// - 3: a record of a day is refused; the days before it were written, and then the day's number, the record's and its code;
/// - 4: a read failed, and nothing was written; with any other status none did;
/// - 5: a write failed, and nothing was written after it: a front of what was to be written was written, and not all; with
///   any other status none did. It doesn't come where the sink is sure to take all that is to be written;
/// - 7: the input is longer than 512 MiB, and that was written;
/// - 8: a day doesn't join the one before it; the days before it were written, and then the day's number and what differs.
///
/// The text is written in pieces of `PIECE` bytes and a last one that is shorter, so a write that fails may leave less of it
/// written than was made. The source isn't asked again once it has told its end.
pub fn chain<I: Source, S: Sink>(alloc: Global, words: &Words, input: &mut I, output: &mut S) -> u8
    ensures { ChainPromises (record {
      words = words.now;
      status = result;
      left = I.left input.old;
      left_after = I.left input.new;
      read_faults = I.faults input.old;
      read_faults_after = I.faults input.new;
      ends = I.ends input.old;
      ends_after = I.ends input.new;
      sink = S.state output.old;
      sink_after = S.state output.new;
    }) }
{
    let mut room = [0; PIECE];
    let mut gathering = GatheringSink::over(output, &mut room);
    if words.len() > 0 {
        let status = refuse_words(&mut gathering);
        return hand_over(status, &mut gathering);
    }
    match read_all(alloc, input, MAX_LONG_INPUT) {
        Ok(bytes) => {
            let status = answer_bytes(alloc, &bytes, &mut gathering);
            hand_over(status, &mut gathering)
        }
        Err(ReadEnd::Size) => {
            let status = refuse_size(&mut gathering);
            hand_over(status, &mut gathering)
        }
        Err(ReadEnd::Fault) => 4,
        Err(ReadEnd::Memory(_)) => 1,
    }
}
