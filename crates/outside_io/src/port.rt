//! Ports: sinks that bytes can be read from, too.
ghost use Rattle.std.specs.Prelude.{◌≡◌, ◌<◌, [], IfOk, length, ◌≤◌};
ghost use Rattle.refused_memory.specs.declared.lists.TheConstants.{MOST};
ghost use Rattle.outside_io.specs.Memory.{AsksMemory, port_state};
ghost use Rattle.outside_io.specs.Ports.{Asks};

use crate::Failed;
use crate::sink::{MemSink, Sink, StdSink};
use crate::source::{Source, StdSource, fill, is_end};
use refused_memory::{Memory, with_capacity};
use std::alloc::Global;
use std::io::{Read, Write};
use std::marker::Model;

/// A sink that bytes can be read from, too. So it is known of each read what had been written before it.
pub trait Port: Sink {
    /// The next bytes, into the front of the buffer: how many came, or 0 at the end. Where it fails, nothing is taken. Each
    /// failure counts one, and nothing else does. Nothing is written.
    fn read(&mut self, buf: &mut [u8]) -> Result<usize, Failed>
        requires { 0 < length buf.old }
        ensures asks { Asks (Self.state self.old) (Self.state self.new) result buf.new };
}

// How many bytes had been read from a port, and written to it, when it was asked.
#[derive(Clone, Copy)]
struct Mark {
    read: usize,
    written: usize,
}

/// A port in memory, whose reads and writes fail where it is told.
#[derive(Drop)]
pub struct MemPort {
    bytes: Vec<u8>,
    at: usize,
    fails: Vec<u64>,
    calls: u64,
    faults: u64,
    ends: u64,
    sink: MemSink,
    // There is room for so many of them.
    marks: Vec<Mark>,
    most: usize,
}

impl Model for MemPort {
    ghost use Rattle.std.specs.Prelude.{◌≤◌, ◌-◌, drop, length, map, take, vec_capacity};
    ghost use Rattle.outside_io.specs.Memory.{MemoryPort};
    ghost use Rattle.outside_io.specs.Marks.{AreWithin, moment_at};

    ghost Value = { MemoryPort };

    ghost view = { λ port. record {
      source = record {
        left = drop port.at port.bytes.items;
        fails = port.fails.items;
        calls = port.calls;
        faults = port.faults;
        ends = port.ends;
      };
      sink = port.sink;
      moments = map (moment_at port.bytes.items port.sink.written) port.marks.items;
      room = port.most - length port.marks.items;
    } };

    ghost invariant = { λ port. (port.at ≤ length port.bytes.items)
        × (port.most ≤ vec_capacity port.marks)
        × (length port.marks.items ≤ port.most)
        × AreWithin (length port.sink.written) port.marks.items };
}

impl MemPort {
    /// A port of these bytes over this sink, which can be asked so many times. The first read has the number 1, and each read
    /// whose number is in `fails` fails. An error says that memory was wanting.
    pub fn over(
        alloc: Global,
        bytes: Vec<u8>,
        fails: Vec<u64>,
        sink: MemSink,
        most: usize,
    ) -> Result<MemPort, Memory>
        requires { most ≤ MOST }
        ensures { IfOk result (λ port. port ≡ record {
          source = record {
            left = bytes.items;
            fails = fails.items;
            calls = 0;
            faults = 0;
            ends = 0;
          };
          sink = sink;
          moments = [];
          room = most;
        }) }
    {
        let marks = with_capacity(alloc, most)?;
        Ok(MemPort {
            bytes,
            at: 0,
            fails,
            calls: 0,
            faults: 0,
            ends: 0,
            sink,
            marks,
            most,
        })
    }

    /// What was written.
    pub fn written(&self) -> &[u8]
        ensures { result.now ≡ self.now.sink.written }
    {
        self.sink.written()
    }
}

impl Sink for MemPort {
    ghost state = { port_state };

    fn write(&mut self, piece: &[u8]) -> Result<usize, Failed> {
        self.sink.write(piece)
    }
}

impl Port for MemPort {
    fn read(&mut self, buf: &mut [u8]) -> Result<usize, Failed>
        requires { 0 < length buf.old }
        ensures asks { Asks (port_state self.old) (port_state self.new) result buf.new }
        ensures exact { AsksMemory self.old self.new result buf.new }
    {
        self.calls = self.calls.saturating_add(1);
        if self.fails.contains(&self.calls) || self.marks.len() == self.most {
            self.faults = self.faults.saturating_add(1);
            return Err(Failed);
        }
        self.marks.push_reserved(Mark {
            read: self.at,
            written: self.sink.written().len(),
        });
        let count = fill(buf, &self.bytes[self.at..]);
        self.at += count;
        self.ends = self.ends.saturating_add(is_end(count));
        Ok(count)
    }
}

/// A port over any reader and writer of std. It tells of what is left, and of what was written, what these tell: nothing, where
/// they are files or terminals; and no moment.
#[derive(Drop)]
pub struct StdPort<R, W> {
    source: StdSource<R>,
    sink: StdSink<W>,
}

impl<R, W> StdPort<R, W> {
    ghost use Rattle.outside_io.specs.Adapters.{IsNewPort};

    /// A port over these, which have not failed.
    pub fn over(reader: R, writer: W) -> StdPort<R, W>
        ensures { IsNewPort reader writer result }
    {
        StdPort {
            source: StdSource::over(reader),
            sink: StdSink::over(writer),
        }
    }
}

impl<R: Read, W: Write> Sink for StdPort<R, W> {
    ghost use Rattle.outside_io.specs.Adapters.{std_port_state};

    ghost state = { std_port_state R.remaining W.contents };

    fn write(&mut self, piece: &[u8]) -> Result<usize, Failed> {
        self.sink.write(piece)
    }
}

impl<R: Read, W: Write> Port for StdPort<R, W> {
    fn read(&mut self, buf: &mut [u8]) -> Result<usize, Failed> {
        self.source.read(buf)
    }
}
