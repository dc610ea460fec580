//! The top call: from the words and the port to the status.
ghost use Rattle.std.specs.Prelude.{◌≡◌, ◌⊎◌};
ghost use Rattle.live_day.specs.Promises.{KeepsPromises, Runs, program_of, usage_text};
ghost use Rattle.live_day.specs.Running.{RunsIfRoom, is_only};
ghost use Rattle.outside_io.specs.Pieces.{HasPut, IsCutShort};
ghost use Rattle.program_answers.specs.LivePrograms.{LivePromises, LiveRun};

use crate::listening::LiveDay;
use crate::resuming::resume;
use crate::stage::Stage;
use cash_amounts::Words;
use outside_io::{Port, Sink, put_all};
use program_answers::listen;
use std::alloc::Global;

// Whether there is one word, and it is this.
fn is_only(wanted: &str, words: &Words) -> bool
    ensures { result ≡ is_only wanted.now words.now }
{
    if words.len() != 1 {
        return false;
    }
    words.word(0) == wanted
}

// Refuses words that are no command line.
fn refuse_words<S: Sink>(sink: &mut S) -> u8
    ensures { ((result ≡ 2) × HasPut (S.state sink.old) (S.state sink.new) usage_text)
        ⊎ ((result ≡ 5) × IsCutShort (S.state sink.old) (S.state sink.new) usage_text) }
{
    match put_all(sink, b"usage: live_day run | resume\n") {
        Ok(()) => 2,
        Err(_) => 5,
    }
}

// Settles a day while its records come.
fn run<P: Port>(alloc: Global, port: &mut P) -> u8
    ensures { RunsIfRoom (program_of Runs) (record {
      status = result;
      port = P.state port.old;
      port_after = P.state port.new;
    }) }
{
    match Stage::with_room(alloc) {
        Ok(stage) => listen(LiveDay::new(stage), port),
        Err(_) => 1,
    }
}

/// Does all that the program does, and answers its status.
///
/// - 0: `END` came, and the day was told to its end;
/// - 1: memory was wanting; nothing was read or written;
/// - 2: the words are no command line, and the usage line was written; nothing is read for them;
/// - 3: a bad record came before the day began, or the input ended without `END`; that was told last;
/// - 4: a read failed; what the bytes before it call for was written;
/// - 5: a write failed, and nothing was written after it: a front of what was due was written;
/// - 6: what a run before had written isn't what it was to write; nothing else was told;
/// - 7: the input is too long; that was told last.
pub fn live<P: Port>(alloc: Global, words: &Words, port: &mut P) -> u8
    ensures { KeepsPromises words.now (record {
      status = result;
      port = P.state port.old;
      port_after = P.state port.new;
    }) }
{
    if is_only("run", words) {
        return run(alloc, port);
    }
    if is_only("resume", words) {
        return resume(alloc, port);
    }
    refuse_words(port)
}
