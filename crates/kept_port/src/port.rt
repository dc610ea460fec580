//! A port that keeps what it reads before it hands it on.
ghost use Rattle.std.specs.Prelude.{◌≡◌, ◌≤◌, ◌<◌, [], is_err, length, vec_capacity};
ghost use Rattle.std.specs.Io.KnownBytes.{WriteAppends};
ghost use Rattle.outside_io.specs.Calls.{StaysSure, TakesSome, WritePasses};
ghost use Rattle.outside_io.specs.Causes.{CountsFaults};
ghost use Rattle.outside_io.specs.Ports.{Asks};
ghost use Rattle.kept_port.specs.Stories.{Flows, IsSince, first_of};
ghost use Rattle.kept_port.specs.StoryProps.{Flows-prop, IsSince-prop};

use crate::keeper::{Halt, Keeper};
use crate::log::Log;
use crate::story::Story;
use outside_io::{Failed, Port, Sink};
use std::snapshot::Snapshot;

/// A port over another one and a log: what is read is in the log, for sure, before it is handed on. What the log has at first is handed on
/// first. Of what is written the first bytes, which were written before, are not written again.
#[derive(Drop)]
pub struct KeptPort<P: Port, L: Log> {
    keeper: Keeper<P, L>,
    story: Story<Keeper<P, L>>,
    ghost since: { IsSince P.state (first_of story) keeper } by { IsSince-prop P.state (first_of story) keeper },
    ghost flows: { Flows P.state (first_of story) keeper story } by { Flows-prop P.state (first_of story) keeper story },
}

impl<P: Port, L: Log> KeptPort<P, L> {
    ghost use Rattle.kept_port.specs.Keepers.{handed_on, queued};
    ghost use Rattle.kept_port.specs.New.{IsNew};
    ghost use Rattle.outside_io.specs.GhostTexts.{bytes_of};

    /// A port that hands on what the log has, which is this text, and then what comes from below. Of what is written to it so many bytes
    /// were written before.
    pub fn over(below: P, log: L, text: Vec<u8>, skip: u64) -> KeptPort<P, L>
        requires same { text.items ≡ L.sure log }
        requires room { 16384 ≤ vec_capacity text }
        ensures below { result.keeper.below ≡ below }
        ensures log { result.keeper.log ≡ log }
        ensures queue { queued result.keeper ≡ L.sure log }
        ensures handed { handed_on result.keeper ≡ [] }
        ensures told { bytes_of result.keeper.told ≡ [] }
        ensures skip { result.keeper.all_skip ≡ skip }
        ensures begins { IsNew result.story result.keeper }
    {
        let keeper = Keeper::over(below, log, text, skip);
        let first = Snapshot::of(&keeper);
        KeptPort {
            keeper,
            story: Story::Begins { first },
        }
    }
}

impl<P: Port, L: Log> KeptPort<P, L> {
    ghost use Rattle.std.specs.Prelude.{◌-◌};

    /// Why nothing more is handed on, where that is so.
    pub fn halt(&self) -> Option<Halt>
        ensures { result ≡ self.now.keeper.halt }
    {
        self.keeper.halt()
    }

    /// How many bytes of what was written before didn't come yet.
    pub fn left_to_skip(&self) -> u64
        ensures { result ≡ self.now.keeper.skip }
    {
        self.keeper.left_to_skip()
    }
}

impl<P: Port, L: Log> Sink for KeptPort<P, L> {
    ghost use Rattle.kept_port.specs.Kept.{NotesWrite, kept_state};

    ghost state = { kept_state P.state };

    fn write(&mut self, piece: &[u8]) -> Result<usize, Failed>
        requires { 0 < length piece.now }
        ensures bound { TakesSome result piece.now }
        ensures bytes { WriteAppends (kept_state P.state self.old).written
            (kept_state P.state self.new).written result piece.now }
        ensures passed { WritePasses (kept_state P.state self.old).layers
            (kept_state P.state self.new).layers result }
        ensures later { (kept_state P.state self.old).faults ≤ (kept_state P.state self.new).faults }
        ensures count { CountsFaults (kept_state P.state self.old).faults
            (kept_state P.state self.new).faults result }
        ensures failed { (kept_state P.state self.new).failed ≡ is_err result }
        ensures unread { (kept_state P.state self.new).reading ≡ (kept_state P.state self.old).reading }
        ensures sure { StaysSure (kept_state P.state self.old) (kept_state P.state self.new) result }
        ensures noted { NotesWrite self.old.story self.new.keeper self.new.story result }
    {
        let count = self.keeper.write(piece)?;
        let before = Snapshot::of(&self.story);
        let then = Snapshot::of(&self.keeper);
        self.story = Story::Wrote { before, then };
        Ok(count)
    }
}

impl<P: Port, L: Log> Port for KeptPort<P, L> {
    ghost use Rattle.kept_port.specs.Kept.{NotesRead, kept_state};

    fn read(&mut self, buf: &mut [u8]) -> Result<usize, Failed>
        requires { 0 < length buf.old }
        ensures asks { Asks (kept_state P.state self.old) (kept_state P.state self.new) result buf.new }
        ensures noted { NotesRead self.old.story self.old.keeper self.new.story result }
    {
        let then = Snapshot::of(&self.keeper);
        let count = self.keeper.next(buf)?;
        let before = Snapshot::of(&self.story);
        self.story = Story::Asked { before, then };
        Ok(count)
    }
}
