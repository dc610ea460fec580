//! The programs that read a day and the text of a legal journal of it.
ghost use Rattle.std.specs.Prelude.{◌≡◌, ◌≤◌, ◌<◌, ℕ, List, Option, suc, true, length};
ghost use Rattle.batch_records.specs.Sound.{is_sound};
ghost use Rattle.machine.specs.Legal.{IsLegal};
ghost use Rattle.machine.specs.Orders.Bounds.{line_limit};
ghost use Rattle.machine.specs.Words.{is_empty};
ghost use Rattle.program_answers.specs.Answers.{done, illegal};
ghost use Rattle.program_answers.specs.Giving.{Says, SaysIfRoom, SaysOneIfRoom};
ghost use Rattle.journal_reading.specs.Answers.{Told, answer_of_followed, answer_of_rest, longest_input};
ghost use Rattle.journal_reading.specs.Programs.{IsDefined, IsTold, journal_program};

use crate::reading::read_journal;
use batch_records::{Day, DayFault};
use cash_amounts::Words;
use commit_journal::Journal;
use outside_io::Sink;
use program_answers::{
    Answering, MAX_LONG_INPUT, Rest, put_illegal, read_input, refuse, status_after,
};
use rule_book::Setting;
use std::alloc::Global;

/// What a program tells of a legal journal, which needn't be complete.
pub trait Telling {
    /// What its words may ask for.
    type Request: Drop;

    ghost asked: { List (List ℕ) → Option Self.Request };

    ghost usage_text: { List ℕ };

    ghost told: { Self.Request → Told };

    ghost IsDone: { Self.Request → List ℕ → List ℕ → Type 0 };

    /// What words ask for; None exactly where they are no command line.
    fn request_of(&self, words: &Words) -> Option<Self::Request>
        ensures { result ≡ asked words.now };

    /// What is written for other words.
    fn usage(&self) -> &'static [u8]
        ensures { result.now ≡ usage_text };

    /// Tells it, or 1 where memory is wanting.
    fn tell<S: Sink>(
        &self,
        alloc: Global,
        setting: &Setting,
        request: &Self::Request,
        journal: &Journal,
        output: &mut S,
    ) -> u8
        requires legal { IsLegal setting.now.day journal.now.history }
        ensures { SaysIfRoom S.state output.old output.new
            (done (told request.now setting.now.day journal.now.history)) result };

    /// What is said at status 0 holds of what is told.
    ghost does: { (request : Self.Request) (bytes text : List ℕ)
        → IsTold (told request) bytes text → IsDone request bytes text };
}

// Says at which place a text goes wrong that begins with this journal.
fn refuse_behind<S: Sink>(journal: &Journal, output: &mut S) -> u8
    requires few { length journal.now.history < line_limit }
    ensures { Says (S.state output.old) (S.state output.new)
        (illegal (suc (length journal.now.history))) result }
{
    status_after(6, put_illegal(journal.len() + 1, output))
}

// Whether a text ends here.
fn is_at_end(behind: &[u8]) -> bool
    ensures { result ≡ is_empty behind.now }
{
    behind.is_empty()
}

// Answers over a journal, whose text ends what was read, or doesn't.
fn answer_journal<T: Telling, S: Sink>(
    telling: &T,
    alloc: Global,
    setting: &Setting,
    request: &T::Request,
    journal: &Journal,
    ends: bool,
    output: &mut S,
) -> u8
    requires legal { IsLegal setting.now.day journal.now.history }
    ensures { (behind : List ℕ) → ends ≡ is_empty behind
        → SaysIfRoom S.state output.old output.new
        (answer_of_followed (T.told request.now) setting.now.day
        (journal.now.history, behind)) result }
{
    if ends {
        return telling.tell(alloc, setting, request, journal, output);
    }
    refuse_behind(journal, output)
}

// Answers over what stands after a day, which is let go once the journal is read.
fn answer_rest<T: Telling, S: Sink>(
    telling: &T,
    alloc: Global,
    setting: &Setting,
    request: &T::Request,
    rest: Rest,
    output: &mut S,
) -> u8
    ensures { SaysIfRoom S.state output.old output.new
        (answer_of_rest (T.told request.now) setting.now.day rest) result }
{
    match read_journal(alloc, setting, rest.as_slice()) {
        Ok((journal, behind)) => {
            let ends = is_at_end(behind);
            drop(rest);
            answer_journal(telling, alloc, setting, request, &journal, ends, output)
        }
        Err(_) => 1,
    }
}

// Answers over a day and what stands after it.
fn answer_day<T: Telling, S: Sink>(
    telling: &T,
    alloc: Global,
    request: &T::Request,
    day: Day,
    rest: Rest,
    output: &mut S,
) -> u8
    requires sound { is_sound day ≡ true }
    ensures { SaysIfRoom S.state output.old output.new
        (answer_of_rest (T.told request.now) day rest) result }
{
    match Setting::build(alloc, day) {
        Ok(setting) => answer_rest(telling, alloc, &setting, request, rest, output),
        Err(_) => 1,
    }
}

// Answers over an input of no more than the greatest size.
fn answer_bytes<T: Telling, S: Sink>(
    telling: &T,
    alloc: Global,
    request: &T::Request,
    bytes: Vec<u8>,
    output: &mut S,
) -> u8
    requires { length bytes.items ≤ longest_input }
    ensures { SaysOneIfRoom S.state output.old output.new
        (IsDefined (T.told request.now) (T.IsDone request.now) bytes.items) result }
{
    match read_input(alloc, bytes) {
        Ok((day, rest)) => answer_day(telling, alloc, request, day, rest, output),
        Err(DayFault::Record { number, code }) => refuse(number, code, output),
        Err(DayFault::Memory(_)) => 1,
    }
}

/// The program that tells this. The input is a day and the text of a legal journal of it, which is checked to its end before
/// anything is told.
///
/// - 0: it was told;
/// - 3: a record of the day is refused; its number and its code were written;
/// - 6: what follows the day isn't the text of a legal journal and nothing else, and the first place was written at which there
///   is no line or another one than the machine's;
/// - 7: the input is longer than 512 MiB, and that was written.
#[derive(Drop)]
pub struct OverJournal<T>(pub T);

impl<T: Telling + Drop> Answering for OverJournal<T> {
    ghost use Rattle.journal_reading.specs.Ends.{long_defined, own_statuses};

    type Request = T::Request;

    ghost program = { journal_program T.asked T.usage_text T.told T.IsDone };

    fn request_of(&self, words: &Words) -> Option<T::Request> {
        self.0.request_of(words)
    }

    fn usage(&self) -> &'static [u8] {
        self.0.usage()
    }

    fn reads(&self, _request: &T::Request) -> bool {
        true
    }

    fn longest_input(&self) -> usize {
        MAX_LONG_INPUT
    }

    fn answer<S: Sink>(
        &self,
        alloc: Global,
        request: &T::Request,
        bytes: Vec<u8>,
        output: &mut S,
    ) -> u8 {
        answer_bytes(&self.0, alloc, request, bytes, output)
    }

    ghost own_status = { λ request bytes answer is. own_statuses (T.IsDone request) bytes answer is.1 };

    ghost long = { λ request bytes reads more. long_defined (T.told request) (T.IsDone request) bytes more };

    ghost short = { λ run nothing. nothing };
}
