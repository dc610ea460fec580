//! The top call: from the words and the streams to the status.
ghost use Rattle.std.specs.Prelude.{◌≡◌, ◌≤◌, ◌+◌, [], true, length, IfOk, MatchOption};
ghost use Rattle.outside_io.specs.Calls.{Puts};
ghost use Rattle.batch_records.specs.DayTexts.{day_text};
ghost use Rattle.batch_records.specs.Meets.{MeetsRules, migrated};
ghost use Rattle.batch_records.specs.Sound.{is_sound};
ghost use Rattle.batch_records.specs.Counts.{record_count};
ghost use Rattle.as_client.specs.Knowing.{Knows};
ghost use Rattle.as_client.specs.Views.{text_lines, view};
ghost use Rattle.journal_replay.specs.Verdicts.{verdict};
ghost use Rattle.commit_journal.specs.Line.{History};
ghost use Rattle.program_answers.specs.Answers.{refused};
ghost use Rattle.program_answers.specs.Giving.{Says, SaysIfRoom, SaysOneIfRoom};
ghost use Rattle.program_answers.specs.Limits.{longest_input};
ghost use Rattle.program_answers.specs.Programs.{IsAsked};
ghost use Rattle.rtgs_engine.specs.Answers.{answer_of_day, answer_of_verdict, answer_of_view};
ghost use Rattle.rtgs_engine.specs.GivenAnswers.{SaysOfMade, settled};
ghost use Rattle.rtgs_engine.specs.CommandLines.{reads, workers_of};
ghost use Rattle.rtgs_engine.specs.Journals.{IsOfDay};
ghost use Rattle.rtgs_engine.specs.Promises.{IsAnswer, IsInputAnswer, RtgsPromises, rtgs_program};

use crate::follow::take_text;
use crate::output::{put_legal, put_output, usage};
use crate::run::settle;
use crate::trials::{try_alone, try_by_workers};
use crate::words::{Command, Trial, command_of, worker_count};
use crate::working::work_bytes;
use as_client::BankView;
use batch_records::{Day, DayCode, DayFault, days_migrate, put_day};
use cash_amounts::{Memory, Name, Words};
use journal_replay::{Verdict, replay};
use outside_io::{Gate, GatheringSink, PIECE, Sink, Source, WriteFault};
use program_answers::{
    Answering, MAX_INPUT, Rest, hand_over, put_illegal, put_ok, read_input, refuse, serve,
    status_after, take_request,
};
use rule_book::Setting;
use std::alloc::Global;
use std::sync::Wait;
use std::thread::Threads;

// Refuses what follows a day.
pub(crate) fn refuse_rest<S: Sink>(day: &Day, output: &mut S) -> u8
    requires sound { is_sound day.now ≡ true }
    ensures { Says (S.state output.old) (S.state output.new)
        (refused (record_count day.now + 1) DayCode.Place) result }
{
    refuse(day.records() + 1, DayCode::Place, output)
}

// Settles a day in the written order and writes its output.
fn settle_day<S: Sink>(alloc: Global, day: Day, output: &mut S) -> u8
    requires sound { is_sound day ≡ true }
    ensures { SaysOfMade S.state output.old output.new (IsOfDay 0 day) (settled day) result }
{
    match settle(alloc, day) {
        Ok(mut told) => {
            let written = put_output(&mut told.walk, &told.settled, output);
            drop(told);
            status_after(0, written)
        }
        Err(_) => 1,
    }
}

// Settles a day behind which only line ends may stand.
fn settle_alone<S: Sink>(alloc: Global, day: Day, rest: Rest, output: &mut S) -> u8
    requires sound { is_sound day ≡ true }
    ensures { SaysOfMade S.state output.old output.new (IsOfDay 0 day)
        (λ made. answer_of_day (Command.Settle 0) day made rest (record_count day)) result }
{
    if rest.is_blank() {
        settle_day(alloc, day, output)
    } else {
        refuse_rest(&day, output)
    }
}

fn message_count(day: &Day) -> u32
    requires sound { is_sound day.now ≡ true }
    ensures { result ≡ length day.now.messages }
{
    day.message_count() as u32
}

// Writes how many messages a day has, behind which only line ends may stand.
fn check_alone<S: Sink>(day: &Day, rest: Rest, output: &mut S) -> u8
    requires sound { is_sound day.now ≡ true }
    ensures { (made : History)
        → Says (S.state output.old) (S.state output.new)
        (answer_of_day Command.Check day.now made rest (record_count day.now)) result }
{
    if rest.is_blank() {
        status_after(0, put_ok(message_count(day), output))
    } else {
        refuse_rest(day, output)
    }
}

// Writes a day as a file of version 2, and one of version 3 as it is.
fn put_migrated<S: Sink>(mut day: Day, sink: &mut S) -> Result<(), WriteFault>
    requires { MeetsRules day }
    ensures { Puts (S.state sink.old) (S.state sink.new) (day_text (migrated day)) result }
{
    days_migrate();
    day.migrate();
    put_day(&day, sink)
}

// Writes a day, behind which only line ends may stand, as a file of version 2, and one of version 3 as it is.
fn migrate_alone<S: Sink>(day: Day, rest: Rest, output: &mut S) -> u8
    requires sound { is_sound day ≡ true }
    requires meets { MeetsRules day }
    ensures { (made : History)
        → Says (S.state output.old) (S.state output.new)
        (answer_of_day Command.Migrate day made rest (record_count day)) result }
{
    if rest.is_blank() {
        status_after(0, put_migrated(day, output))
    } else {
        refuse_rest(&day, output)
    }
}

// The verdict on what follows a day.
fn verdict_on(alloc: Global, day: Day, rest: &[u8]) -> Result<Verdict, Memory>
    requires sound { is_sound day ≡ true }
    ensures { IfOk result (λ v. v ≡ verdict day rest.now) }
{
    let setting = Setting::build(alloc, day)?;
    replay(alloc, &setting, rest)
}

// Writes a verdict.
fn say_verdict<S: Sink>(verdict: Verdict, output: &mut S) -> u8
    ensures { Says (S.state output.old) (S.state output.new) (answer_of_verdict verdict) result }
{
    match verdict {
        Verdict::Legal { lines } => status_after(0, put_legal(lines, output)),
        Verdict::Illegal { place } => status_after(6, put_illegal(place, output)),
    }
}

// Replays what follows a day.
fn replay_rest<S: Sink>(alloc: Global, day: Day, rest: Rest, output: &mut S) -> u8
    requires sound { is_sound day ≡ true }
    ensures { (made : History)
        → SaysIfRoom S.state output.old output.new
        (answer_of_day Command.Replay day made rest (record_count day)) result }
{
    match verdict_on(alloc, day, rest.as_slice()) {
        Ok(verdict) => say_verdict(verdict, output),
        Err(_) => 1,
    }
}

// Follows a party along the lines behind a day, with a view that took nothing yet.
fn follow_with<S: Sink>(
    mut party: BankView,
    day: &Day,
    name: &Name,
    rest: &[u8],
    output: &mut S,
) -> u8
    requires sound { is_sound day.now ≡ true }
    requires fresh { Knows day.now name.now [] party }
    requires short { length rest.now ≤ longest_input }
    ensures { Says (S.state output.old) (S.state output.new)
        (answer_of_view (view day.now (text_lines rest.now) name.now)) result }
{
    match take_text(&mut party, day, name, rest) {
        Ok(taken) => status_after(0, party.put_report(day, taken, output)),
        Err(line) => status_after(6, put_illegal(line, output)),
    }
}

// Follows a party along the lines behind a day.
fn follow_rest<S: Sink>(alloc: Global, day: &Day, name: &Name, rest: Rest, output: &mut S) -> u8
    requires sound { is_sound day.now ≡ true }
    requires short { length rest ≤ longest_input }
    ensures { (made : History)
        → SaysIfRoom S.state output.old output.new
        (answer_of_day (Command.Follow name.now) day.now made rest (record_count day.now))
        result }
{
    match BankView::open(alloc, day, name) {
        Ok(party) => follow_with(party, day, name, rest.as_slice(), output),
        Err(_) => 1,
    }
}

// Answers a command over a day and what follows it, which is settled in the written order.
fn answer_day<S: Sink>(alloc: Global, command: &Command, day: Day, rest: Rest, output: &mut S) -> u8
    requires sound { is_sound day ≡ true }
    requires short { length rest ≤ longest_input }
    requires input { reads command.now ≡ true }
    requires meets { MeetsRules day }
    ensures { SaysOfMade S.state output.old output.new (IsOfDay (workers_of command.now) day)
        (λ made. answer_of_day command.now day made rest (record_count day)) result }
{
    match command {
        Command::Settle { .. } => settle_alone(alloc, day, rest, output),
        Command::Check => check_alone(&day, rest, output),
        Command::Migrate => migrate_alone(day, rest, output),
        Command::Replay => replay_rest(alloc, day, rest, output),
        Command::Follow { name } => follow_rest(alloc, &day, name, rest, output),
        Command::Trial(_) => unreachable!(),
    }
}

// Answers a command over an input of no more than the greatest size, whose day is settled in the written order.
fn answer_bytes<S: Sink>(alloc: Global, command: &Command, bytes: Vec<u8>, output: &mut S) -> u8
    requires short { length bytes.items ≤ longest_input }
    requires input { reads command.now ≡ true }
    ensures { SaysOneIfRoom S.state output.old output.new (IsInputAnswer command.now bytes.items)
        result }
{
    match read_input(alloc, bytes) {
        Ok((day, rest)) => answer_day(alloc, command, day, rest, output),
        Err(DayFault::Record { number, code }) => refuse(number, code, output),
        Err(DayFault::Memory(_)) => 1,
    }
}

// The trial that a command asks for. Any other command reads an input.
fn trial_asked(command: &Command) -> Option<Trial>
    ensures asked { MatchOption result (reads command.now ≡ true)
        (λ trial. command.now ≡ Command.Trial trial) }
{
    match command {
        Command::Trial(trial) => Some(*trial),
        _ => None,
    }
}

// Answers a command without workers, whether or not it asks for some.
fn answer_alone<S: Sink>(alloc: Global, command: &Command, bytes: Vec<u8>, output: &mut S) -> u8
    requires asked { IsAsked rtgs_program command.now }
    requires short { length bytes.items ≤ longest_input }
    ensures { SaysOneIfRoom S.state output.old output.new (IsAnswer command.now bytes.items) result }
{
    match trial_asked(command) {
        Some(trial) => try_alone(alloc, trial, output),
        None => answer_bytes(alloc, command, bytes, output),
    }
}

// Answers a command by as many workers as it asks for.
fn answer_by_workers<R: Threads + Wait + Sync, G: Gate + Sync, S: Sink>(
    rt: &R,
    gate: &G,
    alloc: Global,
    command: &Command,
    bytes: Vec<u8>,
    output: &mut S,
) -> u8
    requires asked { IsAsked rtgs_program command.now }
    requires short { length bytes.items ≤ longest_input }
    ensures { SaysOneIfRoom S.state output.old output.new (IsAnswer command.now bytes.items) result }
{
    match command {
        Command::Settle { workers } if 0 < *workers => {
            work_bytes(rt, gate, *workers, alloc, bytes, output)
        }
        Command::Trial(trial) if 0 < trial.workers => {
            try_by_workers(rt, gate, alloc, *trial, output)
        }
        _ => answer_alone(alloc, command, bytes, output),
    }
}

// Whether a command reads an input.
fn reads_input(command: &Command) -> bool
    ensures { result ≡ reads command.now }
{
    match command {
        Command::Trial(_) => false,
        _ => true,
    }
}

// Settles days in the written order.
#[derive(Drop)]
struct Alone;

impl Answering for Alone {
    ghost use Rattle.rtgs_engine.specs.Ends.{long_answer, own_statuses};

    type Request = Command;

    ghost program = { rtgs_program };

    fn request_of(&self, words: &Words) -> Option<Command> {
        command_of(words)
    }

    fn usage(&self) -> &'static [u8] {
        usage()
    }

    fn reads(&self, request: &Command) -> bool {
        reads_input(request)
    }

    fn longest_input(&self) -> usize {
        MAX_INPUT
    }

    fn answer<S: Sink>(
        &self,
        alloc: Global,
        request: &Command,
        bytes: Vec<u8>,
        output: &mut S,
    ) -> u8 {
        answer_alone(alloc, request, bytes, output)
    }

    ghost own_status = { own_statuses };

    ghost long = { long_answer };

    ghost short = { λ run nothing. nothing };
}

/// Does all that the program does, without workers, and answers its status. The call waits for nobody. Where the words ask for 0
/// workers, the journal of a day is that of the written order; where they ask for more, it is a legal and complete one, and its
/// order is not promised. All else is as `rtgs` says.
pub fn rtgs_alone<I: Source, S: Sink>(
    alloc: Global,
    words: &Words,
    input: &mut I,
    output: &mut S,
) -> u8
    ensures { RtgsPromises (record {
      words = words.now;
      status = result;
      left = I.left input.old;
      left_after = I.left input.new;
      read_faults = I.faults input.old;
      read_faults_after = I.faults input.new;
      ends = I.ends input.old;
      ends_after = I.ends input.new;
      sink = S.state output.old;
      sink_after = S.state output.new;
    }) }
{
    serve(&Alone, alloc, words, input, output)
}

// Does all that the program does, by as many workers as are asked for.
fn rtgs_by_workers<R: Threads + Wait + Sync, I: Source, S: Sink, G: Gate + Sync>(
    rt: &R,
    alloc: Global,
    words: &Words,
    input: &mut I,
    output: &mut S,
    gate: &G,
) -> u8
    ensures { RtgsPromises (record {
      words = words.now;
      status = result;
      left = I.left input.old;
      left_after = I.left input.new;
      read_faults = I.faults input.old;
      read_faults_after = I.faults input.new;
      ends = I.ends input.old;
      ends_after = I.ends input.new;
      sink = S.state output.old;
      sink_after = S.state output.new;
    }) }
{
    let mut room = [0; PIECE];
    let mut gathering = GatheringSink::over(output, &mut room);
    match take_request(&Alone, alloc, words, input, &mut gathering) {
        Ok((command, bytes)) => {
            let status = answer_by_workers(rt, gate, alloc, &command, bytes, &mut gathering);
            hand_over(status, &mut gathering)
        }
        Err(status) => status,
    }
}

/// Does all that the program does, and answers its status.
///
/// - 0: it was done. For `settle`, `check` and `migrate` the input is a day with nothing but line ends behind it, and its output
///   was written, or how many messages it has, or the same day as a file of version 2, or of 3 where it is one. For `replay` the
///   input is a day and the text of a complete legal journal of it, and the number of the journal's lines was written. For
///   `follow NAME` the input is a day and any lines, and what the party of that name knows by the messages addressed to it among
///   them was written. For `trial` the day of the seed was settled and its summary was written; nothing is read for it, and it
///   answers none of 3, 4, 6 and 7;
/// - 1, 2, 4, 5: memory was wanting, and nothing was written; the words are no command line; a read or a write failed (`serve` of
///   `program_answers`);
/// - 3: a record of the day is refused, or what follows the day; its number and its code were written;
/// - 6: what follows the day goes wrong as its journal, and the place was written; or a message in it to the party that is
///   followed moves money on an account that isn't the party's, or more of it than the account holds or may hold, and the
///   number of its line was written;
/// - 7: the input is longer than 128 MiB, and that was written.
///
/// With workers the journal of a day is one of several that are legal and complete, and `settle` waits for its threads; that
/// it is one of these holds however the threads take turns. Without, it is that of the written order, and the call is
/// `rtgs_alone`, which waits for nobody. The gate is called by each worker at each step.
pub fn rtgs<R: Threads + Wait + Sync, I: Source, S: Sink, G: Gate + Sync>(
    rt: &R,
    alloc: Global,
    words: &Words,
    input: &mut I,
    output: &mut S,
    gate: &G,
) -> u8
    ensures { RtgsPromises (record {
      words = words.now;
      status = result;
      left = I.left input.old;
      left_after = I.left input.new;
      read_faults = I.faults input.old;
      read_faults_after = I.faults input.new;
      ends = I.ends input.old;
      ends_after = I.ends input.new;
      sink = S.state output.old;
      sink_after = S.state output.new;
    }) }
{
    match worker_count(words) {
        Some(count) if 0 < count => rtgs_by_workers(rt, alloc, words, input, output, gate),
        _ => rtgs_alone(alloc, words, input, output),
    }
}
