//! The top call: from the words and the streams to the status.
ghost use Rattle.std.specs.Prelude.{◌≡◌, ◌≤◌, ℕ, IfErr, IfOk, length, true};
ghost use Rattle.batch_records.specs.DayAnswers.{Tells};
ghost use Rattle.batch_records.specs.Days.{day_of_bytes};
ghost use Rattle.batch_records.specs.Sound.{is_sound};
ghost use Rattle.program_answers.specs.Giving.{SaysOneIfRoom};
ghost use Rattle.program_answers.specs.Inputs.{IsGiven};
ghost use Rattle.durable_day.specs.Answers.{AnswersOver, longest_input};
ghost use Rattle.durable_day.specs.Promises.{DurablePromises, IsAnswer, durable_program};

use crate::running::answer_rest;
use crate::words::{Request, request_of};
use batch_records::{Day, DayFault};
use cash_amounts::{Memory, Words};
use outside_io::{Sink, Source};
use program_answers::{Answering, MAX_LONG_INPUT, Rest, read_input, refuse, serve};
use rule_book::Setting;
use std::alloc::Global;

// The day at the front of an input, and what stands after it.
#[inline(never)]
fn day_and_rest(alloc: Global, bytes: Vec<u8>) -> Result<(Day, Rest), DayFault>
    ensures given { IfOk result (λ read. (longest : ℕ) → length bytes.items ≤ longest
        → IsGiven longest bytes.items read.0 read.1) }
    ensures sound { IfOk result (λ read. is_sound read.0 ≡ true) }
    ensures fault { IfErr result (λ fault. Tells fault (day_of_bytes bytes.items)) }
{
    read_input(alloc, bytes)
}

// The setting of a day.
#[inline(never)]
fn setting_of(alloc: Global, day: Day) -> Result<Setting, Memory>
    requires { is_sound day ≡ true }
    ensures { IfOk result (λ setting. setting.day ≡ day) }
{
    Setting::build(alloc, day)
}

// Answers over a day and what stands after it.
fn answer_day<S: Sink>(alloc: Global, request: Request, day: Day, rest: Rest, output: &mut S) -> u8
    requires sound { is_sound day ≡ true }
    ensures { SaysOneIfRoom S.state output.old output.new (AnswersOver request day rest)
        result }
{
    match setting_of(alloc, day) {
        Ok(setting) => answer_rest(alloc, request, setting, rest, output),
        Err(_) => 1,
    }
}

// Answers over an input of no more than the greatest size.
fn answer_bytes<S: Sink>(alloc: Global, request: Request, bytes: Vec<u8>, output: &mut S) -> u8
    requires { length bytes.items ≤ longest_input }
    ensures { SaysOneIfRoom S.state output.old output.new (IsAnswer request bytes.items) result }
{
    match day_and_rest(alloc, bytes) {
        Ok((day, rest)) => answer_day(alloc, request, day, rest, output),
        Err(DayFault::Record { number, code }) => refuse(number, code, output),
        Err(DayFault::Memory(_)) => 1,
    }
}

// Does with a store what is asked for.
#[derive(Drop)]
struct StoreRuns;

impl Answering for StoreRuns {
    ghost use Rattle.durable_day.specs.Ends.{long_answer, own_statuses};

    type Request = Request;

    ghost program = { durable_program };

    fn request_of(&self, words: &Words) -> Option<Request> {
        request_of(words)
    }

    fn usage(&self) -> &'static [u8] {
        b"usage: durable_day run K | show\n"
    }

    fn reads(&self, _request: &Request) -> bool {
        true
    }

    fn longest_input(&self) -> usize {
        MAX_LONG_INPUT
    }

    fn answer<S: Sink>(
        &self,
        alloc: Global,
        request: &Request,
        bytes: Vec<u8>,
        output: &mut S,
    ) -> u8 {
        answer_bytes(alloc, *request, bytes, output)
    }

    ghost own_status = { own_statuses };

    ghost long = { λ request bytes reads. long_answer request bytes };

    ghost short = { λ run nothing. nothing };
}

/// Does all that the program does, and answers its status. The words are `run K`, with K of one to seven digits, or `show`. The
/// input is a day and after it the bytes of a store; no bytes are a new store.
///
/// - 0: it was done. `run` opened the store on a disk of which K calls pass, went on to the end of the day and wrote the bytes of the
///   disk; `show` wrote the text of each line of the store's journal, and how many they are;
/// - 1, 2, 4, 5: memory was wanting, the words are no command line, a read or a write failed (`serve` of `program_answers`);
/// - 3: a record of the day is refused; its number and its code were written;
/// - 7: the input is longer than 512 MiB, and that was written;
/// - 8: a call of the disk failed, of `run` alone, and the bytes of the disk were written. They are those of a store with every line
///   that was acknowledged, or those that came, where the store wasn't opened;
/// - 9: the bytes after the day are the store of no legal journal of it, and the first place was written at which no line of one
///   stands.
pub fn durable<R: Source, S: Sink>(
    alloc: Global,
    words: &Words,
    input: &mut R,
    output: &mut S,
) -> u8
    ensures { DurablePromises (record {
      words = words.now;
      status = result;
      left = R.left input.old;
      left_after = R.left input.new;
      read_faults = R.faults input.old;
      read_faults_after = R.faults input.new;
      ends = R.ends input.old;
      ends_after = R.ends input.new;
      sink = S.state output.old;
      sink_after = S.state output.new;
    }) }
{
    serve(&StoreRuns, alloc, words, input, output)
}
