//! What a day tells, as a party hears it: a program that answers while its input comes.
ghost use Rattle.std.specs.Prelude.{◌≡◌, ◌+◌, ◌^◌, ◌<◌, ◌∷◌, ◌++◌, ◌||◌, [], List, IfOk, None, OnOk, is_some, nat_lt, ℕ};
ghost use Rattle.party_gate.specs.Ends.{long_settles, none_told, own_status};
ghost use Rattle.party_gate.specs.Holding.{HasHeard, HasSeen, Keeps};
ghost use Rattle.party_gate.specs.Lines.{open_line};
ghost use Rattle.party_gate.specs.Out.{out_program};
ghost use Rattle.party_gate.specs.Passing.{end_told, longest_told, status_of};
ghost use Rattle.program_answers.specs.LivePrograms.{TellsMore};

use crate::line_keeper::LineKeeper;
use crate::party::PartyName;
use crate::passing::Ending;
use cash_amounts::Name;
use outside_io::{Sink, WriteFault};
use program_answers::Listener;
use std::marker::PhantomData;

// How many bytes a day may tell.
const MAX_TOLD: usize = 4_611_686_018_427_387_904;

/// What was told so far.
#[derive(Drop)]
pub(crate) struct LineFilter<N: PartyName> {
    keeper: LineKeeper,
    // How many bytes were told.
    size: usize,
    // How they end, where nothing that follows is passed on.
    ending: Option<Ending>,
    of: PhantomData<N>,
}

impl<N: PartyName> LineFilter<N> {
    /// Nothing was told.
    pub fn new(name: Name) -> LineFilter<N>
        requires { name ≡ N.name }
        ensures { HasSeen N.name result.keeper result.ending result.size [] }
    {
        LineFilter {
            keeper: LineKeeper::new(name),
            size: 0,
            ending: None,
            of: PhantomData,
        }
    }

    // Passes on what one byte more calls for. How what is told ends, where nothing that follows is passed on.
    fn pass<S: Sink>(&mut self, b: u8, sink: &mut S) -> Result<Option<Ending>, WriteFault>
        ensures told { (bytes : List ℕ)
            → HasSeen N.name self.old.keeper self.old.ending self.old.size bytes
            → TellsMore (out_program N.name) bytes (bytes ++ b ∷ []) (S.state sink.old) (S.state sink.new) result }
        ensures ending { (bytes : List ℕ)
            → HasSeen N.name self.old.keeper self.old.ending self.old.size bytes
            → IfOk result (λ e. e ≡ end_told N.name (bytes ++ b ∷ [])) }
        ensures kept { (bytes : List ℕ)
            → HasSeen N.name self.old.keeper self.old.ending self.old.size bytes
            → IfOk result (λ e. e ≡ None → Keeps self.new.keeper (open_line (bytes ++ b ∷ []))) }
        ensures name { self.new.keeper.name ≡ self.old.keeper.name }
        ensures size { self.new.size ≡ self.old.size }
    {
        if self.ending.is_some() {
            return Ok(self.ending);
        }
        if b == b'\n' {
            return self.keeper.end(sink);
        }
        Ok(self.keeper.add(b))
    }

    // One byte more.
    fn take<S: Sink>(&mut self, b: u8, sink: &mut S) -> Result<(), WriteFault>
        requires { self.old.size + 1 < 2 ^ 64 }
        ensures told { (bytes : List ℕ)
            → HasSeen N.name self.old.keeper self.old.ending self.old.size bytes
            → TellsMore (out_program N.name) bytes (bytes ++ b ∷ []) (S.state sink.old) (S.state sink.new) result }
        ensures seen { (bytes : List ℕ)
            → HasSeen N.name self.old.keeper self.old.ending self.old.size bytes
            → OnOk result (HasSeen N.name self.new.keeper self.new.ending self.new.size (bytes ++ b ∷ [])) }
        ensures size { OnOk result (self.new.size ≡ self.old.size + 1) }
    {
        let ending = self.pass(b, sink)?;
        self.ending = ending;
        self.size += 1;
        Ok(())
    }
}

// The status where what was told ends so.
fn status_of(ending: Option<Ending>, long: bool) -> u8
    ensures { result ≡ status_of ending long }
{
    match ending {
        Some(Ending::Last) => 0,
        Some(Ending::Long) => 7,
        None => if long { 7 } else { 0 },
    }
}

// Whether so many bytes are more than a day may tell.
fn is_long(size: usize) -> bool
    ensures { result ≡ nat_lt longest_told size }
{
    size > MAX_TOLD
}

// Whether nothing that follows is passed on.
fn is_over(ending: Option<Ending>, size: usize) -> bool
    ensures { result ≡ (is_some ending || nat_lt longest_told size) }
{
    ending.is_some() || is_long(size)
}

impl<N: PartyName> Listener for LineFilter<N> {
    ghost program = { out_program N.name };

    ghost has_heard = { HasHeard N.name };

    fn is_settled(&self) -> bool {
        is_over(self.ending, self.size)
    }

    fn most(&self) -> usize {
        (MAX_TOLD + 1).saturating_sub(self.size)
    }

    fn hear<S: Sink>(&mut self, piece: &[u8], sink: &mut S) -> Result<(), WriteFault> {
        for b in piece {
            self.take(*b, sink)?;
        }
        Ok(())
    }

    fn finish<S: Sink>(self, _sink: &mut S) -> Result<u8, WriteFault> {
        Ok(status_of(self.ending, is_long(self.size)))
    }

    ghost own_status = { own_status N.name };

    ghost long = { long_settles N.name };

    ghost none = { none_told N.name };
}
