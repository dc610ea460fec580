//! One run of a program that answers while its input comes.
ghost use Rattle.std.specs.Prelude.{◌≡◌, ◌<◌, ◌+◌, ◌-◌, ◌++◌, [], OnOk, false, true, List, length, ℕ};
ghost use Rattle.outside_io.specs.Gathered.{held, sink_below, through};
ghost use Rattle.outside_io.specs.declared.gathering.GatheringSink.{GatheringSink};
ghost use Rattle.program_answers.specs.LivePrograms.{Finishes, LiveProgram, LivePromises, LiveRun, MayHear, TellsMore};
ghost use Rattle.program_answers.specs.LiveSteps.{GoesOn, HasAllHeard, HearsAll, IsUnderway, run_between};
ghost use Rattle.program_answers.specs.Programs.{is_no_answer};

use crate::giving::hand_over;
use outside_io::{GatheringSink, PIECE, Port, Sink, WriteFault};

/// What a program makes of bytes that come piece by piece.
pub trait Listener {
    /// What the program is.
    ghost program: { LiveProgram };

    /// That these bytes have come.
    ghost has_heard: { Self → List ℕ → Type 0 };

    /// Whether nothing that follows can change the answer.
    fn is_settled(&self) -> bool
        ensures { (heard : List ℕ) → has_heard self.now heard → result ≡ program.is_settled heard };

    /// How many bytes more may come: one more than the most that an input may have.
    fn most(&self) -> usize
        ensures { (heard : List ℕ) → has_heard self.now heard
            → result ≡ program.longest + 1 - length heard };

    /// Takes the bytes that come next, and writes what they call for. At an error a write failed, and a front of that was written;
    /// nothing more is heard then.
    fn hear<S: Sink>(&mut self, piece: &[u8], sink: &mut S) -> Result<(), WriteFault>
        requires { MayHear program (has_heard self.old) (length piece.now) }
        ensures heard { (heard : List ℕ) → has_heard self.old heard
            → OnOk result (has_heard self.new (heard ++ piece.now)) }
        ensures told { (heard : List ℕ) → has_heard self.old heard
            → TellsMore program heard (heard ++ piece.now) (S.state sink.old) (S.state sink.new)
            result };

    /// The rest of the answer, where the input has ended or the answer is settled: writes it, and gives its status.
    fn finish<S: Sink>(self, sink: &mut S) -> Result<u8, WriteFault>
        requires { (heard : List ℕ) × has_heard self heard }
        ensures { (heard : List ℕ) → has_heard self heard
            → Finishes program heard (S.state sink.old) (S.state sink.new) result };

    /// No answer has the status of another end.
    ghost own_status: { (bytes : List ℕ) → is_no_answer (program.answer bytes).status ≡ false };

    /// Too many bytes settle the answer.
    ghost long: { (bytes : List ℕ) → program.longest < length bytes
        → program.is_settled bytes ≡ true };

    /// Before any byte comes nothing is told.
    ghost none: { program.told [] ≡ [] };
}

// Hands on all that was called for, asks for more, and hears it. Whether more may come; or the status of a run that is over: 4 says that
// a read failed, 5 that a write did.
fn hear_next<L: Listener, P: Port>(
    listener: &mut L,
    gathering: &mut GatheringSink<'_, P>,
    buffer: &mut [u8],
) -> Result<bool, u8>
    requires open { MayHear L.program (L.has_heard listener.old) 0 }
    requires room { 0 < length buffer.old }
    ensures same_reference { through gathering.new ≡ through gathering.old }
    ensures goes_on { (first : GatheringSink P) (heard : List ℕ) → held first ≡ []
        → L.has_heard listener.old heard → L.program.is_settled heard ≡ false
        → IsUnderway L.program P.state first gathering.old heard
        → GoesOn L.program P.state (L.has_heard listener.new) first gathering.new heard result }
{
    match gathering.hand_on() {
        Ok(()) => {}
        Err(_) => return Err(5),
    }
    let room = listener.most().min(buffer.len());
    let piece = &mut buffer[..room];
    let count = match gathering.ask(piece) {
        Ok(count) => count,
        Err(_) => return Err(4),
    };
    if count == 0 {
        return Ok(false);
    }
    match listener.hear(&piece[..count], gathering) {
        Ok(()) => Ok(true),
        Err(_) => Err(5),
    }
}

// Hears what comes until the answer is settled or the input has ended. Each piece has a byte at least.
fn hear_all<L: Listener, P: Port>(
    listener: &mut L,
    gathering: &mut GatheringSink<'_, P>,
) -> Result<(), u8>
    requires empty { held gathering.old ≡ [] }
    requires first { L.has_heard listener.old [] }
    ensures same_reference { through gathering.new ≡ through gathering.old }
    ensures hears { HearsAll L.program P.state (L.has_heard listener.new) gathering.old
        gathering.new result }
{
    let mut buffer = [0; PIECE];
    for before in 0..listener.most() {
        if listener.is_settled() {
            return Ok(());
        }
        if !hear_next(listener, gathering, &mut buffer)? {
            return Ok(());
        }
    }
    Ok(())
}

// Gives the rest of the answer, and hands it on.
fn finish_all<L: Listener, P: Port>(listener: L, gathering: &mut GatheringSink<'_, P>) -> u8
    requires { (heard : List ℕ) × L.has_heard listener heard }
    ensures same_reference { through gathering.new ≡ through gathering.old }
    ensures finished { (first : GatheringSink P) (heard : List ℕ) → held first ≡ []
        → L.has_heard listener heard → HasAllHeard L.program P.state first gathering.old heard
        → LivePromises L.program (run_between L.program P.state first gathering.new result) }
{
    match listener.finish(gathering) {
        Ok(status) => hand_over(status, gathering),
        Err(_) => 5,
    }
}

/// Answers while the input comes: hears what comes until the answer is settled or the input has ended, hands on what it calls for before
/// it asks for more, and then finishes the answer. Its status:
///
/// - 4: a read failed; what the bytes before it call for was written;
/// - 5: a write failed, and nothing was written after it: a front of what was due was written;
/// - any other: that of the answer to the bytes that were read, which was written whole.
pub fn listen<L: Listener + Drop, P: Port>(mut listener: L, port: &mut P) -> u8
    requires { L.has_heard listener [] }
    ensures { LivePromises L.program (record {
      status = result;
      port = P.state port.old;
      port_after = P.state port.new;
    }) }
{
    let mut room = [0; PIECE];
    let mut gathering = GatheringSink::over(port, &mut room);
    match hear_all(&mut listener, &mut gathering) {
        Ok(()) => finish_all(listener, &mut gathering),
        Err(status) => status,
    }
}
