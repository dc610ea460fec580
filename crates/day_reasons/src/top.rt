//! The top call: from the words and the streams to the status.
ghost use Rattle.std.specs.Prelude.{◌≡◌, ◌≤◌, ◌+◌, true, [], if◌then◌else◌, length, nat_le};
ghost use Rattle.batch_records.specs.Sound.{is_sound};
ghost use Rattle.journal_replay.specs.Verdicts.{longest};
ghost use Rattle.journal_reading.specs.Reading.{lines_in};
ghost use Rattle.program_answers.specs.Giving.{Says, SaysIfRoom, SaysOneIfRoom};
ghost use Rattle.day_reasons.specs.Promises.{IsDefined, ReasonPromises, answer_of_rest, longest_input, reasons_program};
ghost use Rattle.day_reasons.specs.Works.{IsAlong, IsWork, lines_of};
ghost use Rattle.machine.specs.Words.{is_empty};
ghost use Rattle.program_answers.specs.Answers.{done, ok_text};
ghost use Rattle.day_reasons.specs.Wrong.{wrong_text};
ghost use Rattle.day_reasons.specs.Ends.{end_answer, is_whole, lines_before};

use crate::words::{Request, request_of};
use crate::work::Work;
use crate::wrong::put_wrong;
use batch_records::{Day, DayFault};
use cash_amounts::Words;
use journal_replay::{Verdict, replay};
use outside_io::{Sink, Source};
use program_answers::{
    Answering, MAX_LONG_INPUT, Rest, put_ok, read_input, refuse, serve, status_after,
};
use rule_book::Setting;
use rule_book::parts::message_count;
use std::alloc::Global;

// With how many of the machine's lines a text begins, by the verdict on it, and whether it is known to end behind them.
fn front_of(verdict: Verdict) -> (u32, bool)
    ensures lines { result.0 ≡ lines_in verdict }
    ensures whole { result.1 ≡ is_whole verdict }
{
    match verdict {
        Verdict::Legal { lines } => (lines, true),
        Verdict::Illegal { place } => (place.saturating_sub(1), false),
    }
}

// A place, or the last one where it is behind that.
fn least(place: u32, count: u32) -> u32
    ensures value { result ≡ (if nat_le place count then place else count) }
    ensures most { result ≤ count }
{
    if place <= count { place } else { count }
}

// Over how many of so many lines is told.
fn lines_before(request: &Request, count: u32) -> u32
    ensures value { result ≡ lines_before request.now count }
    ensures most { result ≤ count }
{
    match request.place {
        Some(place) => least(place, count),
        None => count,
    }
}

// Whether a text ends here.
fn is_at_end(behind: &[u8]) -> bool
    ensures { result ≡ is_empty behind.now }
{
    behind.is_empty()
}

// All is well.
fn end_well<S: Sink>(setting: &Setting, output: &mut S) -> u8
    ensures { Says (S.state output.old) (S.state output.new)
        (done (ok_text (length setting.now.day.messages))) result }
{
    status_after(0, put_ok(message_count(setting), output))
}

// What is wrong behind the machine's lines.
fn end_wrong<S: Sink>(work: &mut Work, setting: &Setting, behind: &[u8], output: &mut S) -> u8
    requires work { IsWork setting.now.day work.old }
    ensures { Says (S.state output.old) (S.state output.new) (record {
      status = 6;
      text = wrong_text setting.now.day (lines_of work.old) behind.now;
    }) result }
{
    status_after(6, put_wrong(work, setting, behind, output))
}

// Ends the answer, once the messages are told.
fn end_answer<S: Sink>(work: &mut Work, setting: &Setting, behind: &[u8], output: &mut S) -> u8
    requires work { IsWork setting.now.day work.old }
    ensures { Says (S.state output.old) (S.state output.new)
        (end_answer setting.now.day (lines_of work.old) behind.now) result }
{
    let ends = is_at_end(behind);
    if ends {
        return end_well(setting, output);
    }
    end_wrong(work, setting, behind, output)
}

// Goes on behind the lines over which was told. Of a text that ends behind the machine's lines they are told of, and not followed.
fn tell_rest<S: Sink>(
    work: &mut Work,
    setting: &Setting,
    text: &[u8],
    left: &[u8],
    count: u32,
    whole: bool,
    output: &mut S,
) -> u8
    requires along { IsAlong setting.now.day text.now work.old left.now }
    requires count { length (lines_of work.old) + count ≡ length (longest setting.now.day text.now).0 }
    requires whole { whole ≡ true → is_empty (longest setting.now.day text.now).1 ≡ true }
    ensures { Says (S.state output.old) (S.state output.new)
        (end_answer setting.now.day (longest setting.now.day text.now).0
        (longest setting.now.day text.now).1) result }
{
    if whole {
        return end_well(setting, output);
    }
    let behind = work.go_on(setting, text, left, count);
    end_answer(work, setting, behind, output)
}

// Answers over a text that begins with so many of the machine's lines, of which none is followed yet.
fn tell<S: Sink>(
    work: &mut Work,
    setting: &Setting,
    request: &Request,
    text: &[u8],
    count: u32,
    whole: bool,
    output: &mut S,
) -> u8
    requires work { IsWork setting.now.day work.old }
    requires empty { lines_of work.old ≡ [] }
    requires count { count ≡ length (longest setting.now.day text.now).0 }
    requires whole { whole ≡ true → is_empty (longest setting.now.day text.now).1 ≡ true }
    ensures { Says (S.state output.old) (S.state output.new)
        (answer_of_rest request.now setting.now.day text.now) result }
{
    let first = lines_before(request, count);
    let left = work.go_on(setting, text, text, first);
    match work.put_told(setting, output) {
        Ok(()) => tell_rest(work, setting, text, left, count - first, whole, output),
        Err(_) => 5,
    }
}

// The same, where there is memory for it.
fn tell_in_room<S: Sink>(
    alloc: Global,
    setting: &Setting,
    request: &Request,
    text: &[u8],
    count: u32,
    whole: bool,
    output: &mut S,
) -> u8
    requires count { count ≡ length (longest setting.now.day text.now).0 }
    requires whole { whole ≡ true → is_empty (longest setting.now.day text.now).1 ≡ true }
    ensures { SaysIfRoom S.state output.old output.new
        (answer_of_rest request.now setting.now.day text.now) result }
{
    match Work::open(alloc, setting) {
        Ok(mut work) => {
            let status = tell(&mut work, setting, request, text, count, whole, output);
            drop(work);
            status
        }
        Err(_) => 1,
    }
}

// Answers over what stands after a day.
fn answer_rest<S: Sink>(
    alloc: Global,
    setting: &Setting,
    request: &Request,
    text: &[u8],
    output: &mut S,
) -> u8
    ensures { SaysIfRoom S.state output.old output.new
        (answer_of_rest request.now setting.now.day text.now) result }
{
    match replay(alloc, setting, text) {
        Ok(verdict) => {
            let (count, whole) = front_of(verdict);
            tell_in_room(alloc, setting, request, text, count, whole, output)
        }
        Err(_) => 1,
    }
}

// Answers over a day and what stands after it.
fn answer_day<S: Sink>(alloc: Global, request: &Request, day: Day, rest: Rest, output: &mut S) -> u8
    requires sound { is_sound day ≡ true }
    ensures { SaysIfRoom S.state output.old output.new (answer_of_rest request.now day rest)
        result }
{
    match Setting::build(alloc, day) {
        Ok(setting) => answer_rest(alloc, &setting, request, rest.as_slice(), output),
        Err(_) => 1,
    }
}

// Answers over an input of no more than the greatest size.
fn answer_bytes<S: Sink>(alloc: Global, request: &Request, bytes: Vec<u8>, output: &mut S) -> u8
    requires { length bytes.items ≤ longest_input }
    ensures { SaysOneIfRoom S.state output.old output.new (IsDefined request.now bytes.items)
        result }
{
    match read_input(alloc, bytes) {
        Ok((day, rest)) => answer_day(alloc, request, day, rest, output),
        Err(DayFault::Record { number, code }) => refuse(number, code, output),
        Err(DayFault::Memory(_)) => 1,
    }
}

// Tells the reasons that are asked for.
#[derive(Drop)]
struct Explains;

impl Answering for Explains {
    ghost use Rattle.day_reasons.specs.Programs.{long_defined, own_statuses};

    type Request = Request;

    ghost program = { reasons_program };

    fn request_of(&self, words: &Words) -> Option<Request> {
        request_of(words)
    }

    fn usage(&self) -> &'static [u8] {
        b"usage: day_reasons [PLACE]\n"
    }

    fn reads(&self, _request: &Request) -> bool {
        true
    }

    fn longest_input(&self) -> usize {
        MAX_LONG_INPUT
    }

    fn answer<S: Sink>(
        &self,
        alloc: Global,
        request: &Request,
        bytes: Vec<u8>,
        output: &mut S,
    ) -> u8 {
        answer_bytes(alloc, request, bytes, output)
    }

    ghost own_status = { λ request bytes answer is. own_statuses request bytes answer is.1 };

    ghost long = { λ request bytes reads more. long_defined request bytes more };

    ghost short = { λ run nothing. nothing };
}

/// Does all that the program does, and answers its status. There is no word, or a place of one to seven digits. The input is a day and
/// the text of a journal of it, legal or not, whole or a front of it.
///
/// - 0: what follows the day is the text of a legal journal. Of each message it was written how far it has come after the lines up to the
///   place, or after all, and of its items that wait why; and how many messages there are;
/// - 6: what follows the day isn't. The same was written over the machine's lines with which it begins, and what is wrong behind them;
/// - 3: a record of the day is refused; its number and its code were written;
/// - 7: the input is longer than 512 MiB, and that was written;
/// - 1, 2, 4, 5: memory was wanting, the words are no command line, a read or a write failed (`serve` of `program_answers`).
pub fn reasons<R: Source, S: Sink>(
    alloc: Global,
    words: &Words,
    input: &mut R,
    output: &mut S,
) -> u8
    ensures { ReasonPromises (record {
      words = words.now;
      status = result;
      left = R.left input.old;
      left_after = R.left input.new;
      read_faults = R.faults input.old;
      read_faults_after = R.faults input.new;
      ends = R.ends input.old;
      ends_after = R.ends input.new;
      sink = S.state output.old;
      sink_after = S.state output.new;
    }) }
{
    serve(&Explains, alloc, words, input, output)
}
