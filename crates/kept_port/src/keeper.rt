//! What comes from below, and is kept before it is handed on.
ghost use Rattle.std.specs.Prelude.{◌≡◌, ◌≤◌, ◌<◌, ◌-◌, ◌+◌, ◌++◌, [], Some, None, OnErr, OnOk, drop, false, is_err, length, min, take, true, vec_capacity};
ghost use Rattle.std.specs.Io.KnownBytes.{Consumes, Keeps, WriteAppends};
ghost use Rattle.outside_io.specs.Calls.{StaysSure, TakesSome, WritePasses};
ghost use Rattle.outside_io.specs.Causes.{CountsFaults, one_more};
ghost use Rattle.outside_io.specs.Ports.{Asks};
ghost use Rattle.outside_io.specs.GhostTexts.{bytes_of};
ghost use Rattle.kept_port.specs.Texts.{waiting};

use crate::log::Log;
use outside_io::{Failed, GhostText, PIECE, Port};

/// Why a port that keeps hands on nothing more.
#[derive(Clone, Copy, Debug, PartialEq, Eq)]
pub enum Halt {
    /// The input below has ended.
    Ended,
    /// A read below failed.
    ReadFailed,
    /// What came could not be kept.
    NotKept,
    /// What is kept calls for less than was written before.
    Short,
}

/// What came from a port, kept in a log before it is handed on.
#[derive(Drop)]
pub struct Keeper<P, L: Log> {
    below: P,
    log: L,
    // What came last, from `at` on still to be handed on.
    queue: Vec<u8>,
    at: usize,
    // Whether the log has it.
    is_kept: bool,
    faults: u64,
    halt: Option<Halt>,
    // So many bytes of what is written were written before, and so many of them are still to come.
    all_skip: u64,
    skip: u64,
    // The last write failed.
    failed: bool,
    // All that was handed on, and all that was written.
    handed: GhostText,
    told: GhostText,
    ghost within: { at ≤ length queue.items },
    ghost room: { 16384 ≤ vec_capacity queue },
    ghost unkept: { is_kept ≡ false → at ≡ 0 },
    ghost some: { is_kept ≡ false → 0 < length queue.items },
    ghost small: { is_kept ≡ false → length queue.items ≤ 16384 },
    ghost sure: { L.sure log ≡ bytes_of handed ++ waiting queue.items at is_kept },
    ghost skipping: { skip ≡ all_skip - length (bytes_of told) },
}

// Copies as much as there is and the buffer holds.
fn fill(buf: &mut [u8], bytes: &[u8]) -> usize
    ensures count { result ≡ min (length bytes.now) (length buf.old) }
    ensures bytes { take result buf.new ≡ take result bytes.now }
{
    let count = bytes.len().min(buf.len());
    buf[..count].copy_from_slice(&bytes[..count]);
    count
}

impl<P, L: Log> Keeper<P, L> {
    /// All that the log has waits. So many bytes of what is written were written before.
    pub(crate) fn over(below: P, log: L, text: Vec<u8>, skip: u64) -> Keeper<P, L>
        requires same { text.items ≡ L.sure log }
        requires room { 16384 ≤ vec_capacity text }
        ensures below { result.below ≡ below }
        ensures log { result.log ≡ log }
        ensures queue { drop result.at result.queue.items ≡ text.items }
        ensures handed { bytes_of result.handed ≡ [] }
        ensures told { bytes_of result.told ≡ [] }
        ensures skip { result.all_skip ≡ skip }
        ensures faults { result.faults ≡ 0 }
        ensures halt { result.halt ≡ None }
    {
        Keeper {
            below,
            log,
            queue: text,
            at: 0,
            is_kept: true,
            faults: 0,
            halt: None,
            all_skip: skip,
            skip,
            failed: false,
            handed: GhostText::Nothing,
            told: GhostText::Nothing,
        }
    }

    /// Why nothing more is handed on, where that is so.
    pub(crate) fn halt(&self) -> Option<Halt>
        ensures { result ≡ self.now.halt }
    {
        self.halt
    }

    /// How many bytes of what was written before didn't come yet.
    pub(crate) fn left_to_skip(&self) -> u64
        ensures { result ≡ self.now.skip }
    {
        self.skip
    }

    // Hands on nothing more.
    fn stop(&mut self, halt: Halt) -> Failed
        ensures below { self.new.below ≡ self.old.below }
        ensures log { self.new.log ≡ self.old.log }
        ensures queue { self.new.queue ≡ self.old.queue }
        ensures at { self.new.at ≡ self.old.at }
        ensures kept { self.new.is_kept ≡ self.old.is_kept }
        ensures handed { self.new.handed ≡ self.old.handed }
        ensures told { self.new.told ≡ self.old.told }
        ensures skip { self.new.all_skip ≡ self.old.all_skip }
        ensures flag { self.new.failed ≡ self.old.failed }
        ensures later { self.old.faults ≤ self.new.faults }
        ensures counted { self.new.faults ≡ one_more self.old.faults }
    {
        self.halt = Some(halt);
        self.faults = self.faults.saturating_add(1);
        Failed
    }
}

impl<P: Port, L: Log> Keeper<P, L> {
    ghost use Rattle.kept_port.specs.Keepers.{Fetches, Grows, WritesBehind, handed_on, keeper_state, queued};

    // Asks the port below. The queue has what came then.
    fn fetch(&mut self, most: usize) -> Result<(), Failed>
        requires some { 0 < most }
        requires none { queued self.old ≡ [] }
        requires kept { self.old.is_kept ≡ true }
        ensures fetches { Fetches P.state self.old self.new result }
        ensures handed { handed_on self.new ≡ handed_on self.old }
        ensures told { bytes_of self.new.told ≡ bytes_of self.old.told }
        ensures skip { self.new.all_skip ≡ self.old.all_skip }
        ensures flag { self.new.failed ≡ self.old.failed }
        ensures later { self.old.faults ≤ self.new.faults }
        ensures count { CountsFaults self.old.faults self.new.faults result }
    {
        if self.skip > 0 {
            return Err(self.stop(Halt::Short));
        }
        let mut buffer = [0; PIECE];
        let room = most.min(PIECE);
        let piece = &mut buffer[..room];
        match self.below.read(piece) {
            Ok(0) => Err(self.stop(Halt::Ended)),
            Ok(count) => {
                self.queue.clear();
                self.queue.extend_from_slice(&piece[..count]).unwrap();
                self.at = 0;
                self.is_kept = false;
                Ok(())
            }
            Err(_) => Err(self.stop(Halt::ReadFailed)),
        }
    }

    // Puts what came into the log, where that isn't done.
    fn keep(&mut self) -> Result<(), Failed>
        requires { 0 < length (queued self.old) }
        ensures below { self.new.below ≡ self.old.below }
        ensures kept { OnOk result (self.new.is_kept ≡ true) }
        ensures queued { queued self.new ≡ queued self.old }
        ensures handed { handed_on self.new ≡ handed_on self.old }
        ensures told { bytes_of self.new.told ≡ bytes_of self.old.told }
        ensures skip { self.new.all_skip ≡ self.old.all_skip }
        ensures flag { self.new.failed ≡ self.old.failed }
        ensures later { self.old.faults ≤ self.new.faults }
        ensures count { CountsFaults self.old.faults self.new.faults result }
    {
        if self.is_kept {
            return Ok(());
        }
        match self.log.append(&self.queue) {
            Ok(()) => {
                self.is_kept = true;
                Ok(())
            }
            Err(_) => Err(self.stop(Halt::NotKept)),
        }
    }

    // Hands on what waits.
    fn hand_on(&mut self, buf: &mut [u8]) -> usize
        requires some { 0 < length buf.old }
        requires kept { self.old.is_kept ≡ true }
        requires waits { 0 < length (queued self.old) }
        ensures count { 0 < result }
        ensures bound { result ≤ length buf.new }
        ensures handed { handed_on self.new ≡ handed_on self.old ++ take result buf.new }
        ensures queued { queued self.old ≡ take result buf.new ++ queued self.new }
        ensures below { self.new.below ≡ self.old.below }
        ensures told { bytes_of self.new.told ≡ bytes_of self.old.told }
        ensures skip { self.new.all_skip ≡ self.old.all_skip }
        ensures flag { self.new.failed ≡ self.old.failed }
        ensures faults { self.new.faults ≡ self.old.faults }
    {
        let count = fill(buf, &self.queue[self.at..]);
        self.handed.add_all(&buf[..count]);
        self.at += count;
        count
    }

    /// The next bytes: what the log had at first, and then what comes from below, once the log has it.
    pub(crate) fn next(&mut self, buf: &mut [u8]) -> Result<usize, Failed>
        requires { 0 < length buf.old }
        ensures asks { Asks (keeper_state P.state self.old) (keeper_state P.state self.new) result
            buf.new }
        ensures handed { Grows (handed_on self.old) (handed_on self.new) result buf.new }
        ensures told { bytes_of self.new.told ≡ bytes_of self.old.told }
        ensures skip { self.new.all_skip ≡ self.old.all_skip }
        ensures unwritten { (P.state self.new.below).written ≡ (P.state self.old.below).written }
    {
        if self.at == self.queue.len() {
            self.fetch(buf.len())?;
        }
        self.keep()?;
        Ok(self.hand_on(buf))
    }

    /// Writes a front of a piece below, but for what was written before.
    pub(crate) fn write(&mut self, piece: &[u8]) -> Result<usize, Failed>
        requires { 0 < length piece.now }
        ensures bound { TakesSome result piece.now }
        ensures bytes { Grows (bytes_of self.old.told) (bytes_of self.new.told) result piece.now }
        ensures passed { WritePasses (P.state self.old.below).layers (P.state self.new.below).layers
            result }
        ensures later { (P.state self.old.below).faults ≤ (P.state self.new.below).faults }
        ensures count { CountsFaults (P.state self.old.below).faults
            (P.state self.new.below).faults result }
        ensures failed { (keeper_state P.state self.new).failed ≡ is_err result }
        ensures unread { (keeper_state P.state self.new).reading
            ≡ (keeper_state P.state self.old).reading }
        ensures sure { StaysSure (keeper_state P.state self.old) (keeper_state P.state self.new)
            result }
        ensures real { WritesBehind P.state self.old.skip self.old self.new result piece.now }
        ensures handed { handed_on self.new ≡ handed_on self.old }
        ensures skip { self.new.all_skip ≡ self.old.all_skip }
        ensures log { self.new.log ≡ self.old.log }
    {
        if self.skip > 0 {
            let count = piece.len().min(self.skip as usize);
            self.skip -= count as u64;
            self.told.add_all(&piece[..count]);
            self.failed = false;
            return Ok(count);
        }
        match self.below.write(piece) {
            Ok(count) => {
                self.told.add_all(&piece[..count]);
                self.failed = false;
                Ok(count)
            }
            Err(_) => {
                self.failed = true;
                Err(Failed)
            }
        }
    }
}
