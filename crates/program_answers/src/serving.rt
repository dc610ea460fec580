//! One run of a program.
ghost use Rattle.std.specs.Prelude.{◌≡◌, ◌≤◌, ◌<◌, ◌^◌, ◌-◌, [], false, true, IfErr, IfOk, List, OnOk, length, ℕ};
ghost use Rattle.outside_io.specs.Gathered.{held, sink_below, through};
ghost use Rattle.outside_io.specs.Pieces.{SinkState};
ghost use Rattle.program_answers.specs.Answers.{Answer, too_long};
ghost use Rattle.program_answers.specs.Giving.{Says, SaysOneIfRoom};
ghost use Rattle.program_answers.specs.Programs.{HasTaken, IsAsked, Program, Promises, WroteNothing, is_no_answer};
ghost use Rattle.program_answers.specs.Runs.{Run};

use crate::giving::{hand_over, refuse_size, status_after};
use cash_amounts::Words;
use outside_io::{GatheringSink, PIECE, ReadEnd, Sink, Source, put_all, read_all};
use std::alloc::Global;

/// What a program answers.
pub trait Answering {
    /// What its words may ask for.
    type Request: Drop;

    /// What the program is.
    ghost program: { Program Self.Request };

    /// What words ask for; None exactly where they are no command line.
    fn request_of(&self, words: &Words) -> Option<Self::Request>
        ensures { result ≡ program.request_of words.now };

    /// What is written for other words.
    fn usage(&self) -> &'static [u8]
        ensures { result.now ≡ program.usage_text };

    /// Whether an input is read for it.
    fn reads(&self, request: &Self::Request) -> bool
        ensures { result ≡ program.reads request.now };

    /// How many bytes an input may have.
    fn longest_input(&self) -> usize
        ensures limit { result ≡ program.longest_input }
        ensures small { result < 2 ^ 64 - 1 };

    /// Answers a request that some words ask for, over an input of no more than the greatest size, or over no bytes where nothing
    /// is read. Whoever needs them no more lets them go.
    fn answer<S: Sink>(
        &self,
        alloc: Global,
        request: &Self::Request,
        bytes: Vec<u8>,
        output: &mut S,
    ) -> u8
        requires asked { IsAsked program request.now }
        requires within { length bytes.items ≤ program.longest_input }
        ensures { SaysOneIfRoom S.state output.old output.new
            (program.IsAnswer request.now bytes.items) result };

    /// No answer has the status of another end.
    ghost own_status: { (request : Self.Request) (bytes : List ℕ) (answer : Answer)
        → program.IsAnswer request bytes answer → is_no_answer answer.status ≡ false };

    /// A longer input is told so.
    ghost long: { (request : Self.Request) (bytes : List ℕ) → program.reads request ≡ true
        → program.longest_input < length bytes → program.IsAnswer request bytes too_long };

    /// Where nothing was written what is said of want of memory holds.
    ghost short: { (run : Run) → WroteNothing program.longest_input run → program.RanShort run };
}

// Refuses words that are no command line.
fn refuse_words<S: Sink>(usage: &[u8], output: &mut S) -> u8
    ensures { Says (S.state output.old) (S.state output.new) (record {
      status = 2;
      text = usage.now;
    }) result }
{
    status_after(2, put_all(output, usage))
}

/// What is asked for, and what was read for it, or nothing where nothing is; or the status of a run that is over, with all that
/// it writes handed on. The sink that gathers holds nothing. Whoever answers what is asked for hands the rest over
/// (`hand_over`), and has served the program.
pub fn take_request<A: Answering, R: Source, S: Sink>(
    program: &A,
    alloc: Global,
    words: &Words,
    input: &mut R,
    gathering: &mut GatheringSink<'_, S>,
) -> Result<(A::Request, Vec<u8>), u8>
    requires empty { held gathering.old ≡ [] }
    ensures same_reference { through gathering.new ≡ through gathering.old }
    ensures untouched { OnOk result (gathering.new ≡ gathering.old) }
    ensures taken { IfOk result (λ taken. (status : ℕ) → (sink sink_after : SinkState)
        → HasTaken A.program (record {
          words = words.now;
          status = status;
          left = R.left input.old;
          left_after = R.left input.new;
          read_faults = R.faults input.old;
          read_faults_after = R.faults input.new;
          ends = R.ends input.old;
          ends_after = R.ends input.new;
          sink = sink;
          sink_after = sink_after;
        }) taken.0 taken.1.items) }
    ensures over { IfErr result (λ status. Promises A.program (record {
      words = words.now;
      status = status;
      left = R.left input.old;
      left_after = R.left input.new;
      read_faults = R.faults input.old;
      read_faults_after = R.faults input.new;
      ends = R.ends input.old;
      ends_after = R.ends input.new;
      sink = S.state (sink_below gathering.old);
      sink_after = S.state (sink_below gathering.new);
    })) }
{
    let Some(request) = program.request_of(words) else {
        let status = refuse_words(program.usage(), gathering);
        return Err(hand_over(status, gathering));
    };
    if !program.reads(&request) {
        return Ok((request, Vec::new(alloc)));
    }
    match read_all(alloc, input, program.longest_input()) {
        Ok(bytes) => Ok((request, bytes)),
        Err(ReadEnd::Size) => {
            let status = refuse_size(gathering);
            Err(hand_over(status, gathering))
        }
        Err(ReadEnd::Fault) => Err(4),
        Err(ReadEnd::Memory(_)) => Err(1),
    }
}

/// Does all that a program does, and answers its status.
///
/// - 1: memory was wanting; nothing was written;
/// - 2: the words are no command line, and the usage line was written; nothing is read for them;
/// - 4: a read failed, and nothing was written; with any other status none did, and none does where nothing is read for what is
///   asked for;
/// - 5: a write failed, and nothing was written after it: a front of what was to be written was written, and not all; with any
///   other status none did. It doesn't come where the sink is sure to take all that is to be written;
/// - any other: that of an answer to the bytes that were read, which was written whole; 7 where the input is too long.
///
/// The text is written in pieces of `PIECE` bytes and a last one that is shorter, so a write that fails may leave less of it
/// written than was made. The source isn't asked again once it has told its end.
pub fn serve<A: Answering, R: Source, S: Sink>(
    program: &A,
    alloc: Global,
    words: &Words,
    input: &mut R,
    output: &mut S,
) -> u8
    ensures { Promises A.program (record {
      words = words.now;
      status = result;
      left = R.left input.old;
      left_after = R.left input.new;
      read_faults = R.faults input.old;
      read_faults_after = R.faults input.new;
      ends = R.ends input.old;
      ends_after = R.ends input.new;
      sink = S.state output.old;
      sink_after = S.state output.new;
    }) }
{
    let mut room = [0; PIECE];
    let mut gathering = GatheringSink::over(output, &mut room);
    match take_request(program, alloc, words, input, &mut gathering) {
        Ok((request, bytes)) => {
            let status = program.answer(alloc, &request, bytes, &mut gathering);
            hand_over(status, &mut gathering)
        }
        Err(status) => status,
    }
}
