//! A sink that gathers what is written, and hands it on in large pieces.
ghost use Rattle.std.specs.Prelude.{◌≡◌, ℕ, ◌+◌, ◌<◌, ◌≤◌, [], false, ◌++◌, length, take, drop, OnOk};
ghost use Rattle.outside_io.specs.Gathering.{HandsOn};
ghost use Rattle.outside_io.specs.Ports.{Asks};

use crate::Failed;
use crate::port::Port;
use crate::sink::{Sink, WriteFault, put_at};

/// How many bytes are gathered, and how many are read at a time: 16 KiB.
pub const PIECE: usize = 16_384;

/// A sink in front of another. It gathers what is written in a room that it is given, and hands on what fills it; the rest
/// is handed on by `hand_on` alone.
///
/// A write fails only where one to the sink below fails. What wasn't handed on then is still held, and the next write tries
/// again.
#[derive(Drop)]
pub struct GatheringSink<'a, S> {
    below: &'a mut S,
    room: &'a mut [u8],
    // What is held stands in the room from here on, up to the end of what is used.
    from: usize,
    used: usize,
    // The last write failed.
    failed: bool,
    ghost some_room: { 0 < length room.now },
    ghost held_is: { from ≤ used },
    ghost fits: { used ≤ length room.now },
}

// Writes what stands from a place on, which then is the place of what is left. The room stays as it is.
fn put_from<S: Sink>(
    sink: &mut S,
    room: &mut [u8],
    used: usize,
    from: &mut usize,
) -> Result<(), WriteFault>
    requires used { used ≤ length room.old }
    requires place { from.old ≤ used }
    ensures handed { HandsOn (S.state sink.old) (S.state sink.new)
        (drop from.old (take used room.old)) (drop from.new (take used room.new)) result }
    ensures inside { from.new ≤ used }
    ensures kept { room.new ≡ room.old }
{
    let held = &room[..used];
    while *from < held.len() {
        *from += sink.write(&held[*from..])?;
    }
    Ok(())
}

impl<'a, S: Sink> GatheringSink<'a, S> {
    ghost use Rattle.outside_io.specs.Gathered.{held, sink_below, through};

    /// Nothing is gathered yet. The room is where it will be.
    pub fn over(below: &'a mut S, room: &'a mut [u8]) -> GatheringSink<'a, S>
        requires { 0 < length room.old }
        ensures same_reference { through result ≡ below.entry.ghost_name }
        ensures same { sink_below result ≡ below.old }
        ensures none { held result ≡ [] }
    {
        GatheringSink {
            below,
            room,
            from: 0,
            used: 0,
            failed: false,
        }
    }

    /// Hands on what is held. At an error a front of it was, and the rest is still held.
    pub fn hand_on(&mut self) -> Result<(), WriteFault>
        ensures same_reference { through self.new ≡ through self.old }
        ensures handed { HandsOn (S.state (sink_below self.old)) (S.state (sink_below self.new))
            (held self.old) (held self.new) result }
        ensures empty { OnOk result (self.new.used ≡ 0) }
    {
        put_from(self.below, self.room, self.used, &mut self.from)?;
        self.from = 0;
        self.used = 0;
        Ok(())
    }

    // Gathers as much of a piece as there is room for.
    fn gather(&mut self, piece: &[u8]) -> usize
        requires some { 0 < length piece.now }
        requires room { self.old.used < length self.old.room.now }
        ensures same_reference { through self.new ≡ through self.old }
        ensures same { sink_below self.new ≡ sink_below self.old }
        ensures least { 0 < result }
        ensures most { result ≤ length piece.now }
        ensures held { held self.new ≡ held self.old ++ take result piece.now }
        ensures good { self.new.failed ≡ false }
    {
        let count = put_at(self.room, self.used, piece);
        self.used += count;
        self.failed = false;
        count
    }
}

impl<S: Port> GatheringSink<'_, S> {
    ghost use Rattle.outside_io.specs.Gathered.{held, sink_below, through};

    /// Asks the port below for bytes. What is held stays held.
    pub fn ask(&mut self, buf: &mut [u8]) -> Result<usize, Failed>
        requires { 0 < length buf.old }
        ensures same_reference { through self.new ≡ through self.old }
        ensures same { held self.new ≡ held self.old }
        ensures asks { Asks (S.state (sink_below self.old)) (S.state (sink_below self.new)) result
            buf.new }
    {
        self.below.read(buf)
    }
}

impl<S: Sink> Sink for GatheringSink<'_, S> {
    ghost use Rattle.outside_io.specs.Gathered.{gathering_state};

    ghost state = { gathering_state S.state };

    fn write(&mut self, piece: &[u8]) -> Result<usize, Failed> {
        if self.used < self.room.len() {
            return Ok(self.gather(piece));
        }
        match self.hand_on() {
            Ok(()) => Ok(self.gather(piece)),
            Err(_) => {
                self.failed = true;
                Err(Failed)
            }
        }
    }
}
