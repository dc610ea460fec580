//! The top call over memory.
use anyhow::{Result, anyhow};
use cash_amounts::Words;
use outside_io::{GatheringSink, MemSink, MemSource, NoGate};
use rtgs_engine::rtgs;
use std::alloc::Global;
use std::sync::Wait;
use std::thread::Threads;

/// The devices of a run: which of the reads and which of the writes fails, for how many bytes there is room, and how many of
/// them a write takes.
#[derive(Clone, Copy, Debug)]
pub struct Devices {
    /// The number of the read that fails, from 1; or 0, and none does.
    pub failing_read: u64,
    /// The number of the write that fails, from 1; or 0, and none does.
    pub failing_write: u64,
    /// The bytes for which the sink has room.
    pub room: usize,
    /// The most bytes that a write takes; or 0, and it takes what there is room for.
    pub at_a_time: usize,
}

impl Devices {
    /// Devices that don't fail as long as there is room.
    pub fn with_room(room: usize) -> Devices {
        Devices {
            failing_read: 0,
            failing_write: 0,
            room,
            at_a_time: 0,
        }
    }
}

/// What came of a run.
#[derive(Drop)]
pub struct Answer {
    pub status: u8,
    pub written: Vec<u8>,
}

fn words_of(alloc: Global, line: &str) -> Result<Words> {
    let mut words = Words::new(alloc);
    for word in line.split_whitespace() {
        words
            .push(word)
            .map_err(|_| anyhow!("no memory for a word"))?;
    }
    Ok(words)
}

/// The status where a write failed.
pub const WRITE_FAILED: u8 = 5;

// Runs a command line over a writer that takes at most so many bytes at a call. What it holds in the end is handed on as its
// last write.
fn run_over_slow_writer<R: AllocGlobal + Threads + Wait + Sync>(
    rt: &R,
    words: &Words,
    source: &mut MemSource,
    sink: &mut MemSink,
    at_a_time: usize,
) -> Result<u8> {
    let alloc = rt.alloc();
    let mut held = vec![in alloc; 0u8; at_a_time.max(1)]?;
    let mut writer = GatheringSink::over(sink, &mut held);
    let status = rtgs(rt, alloc, words, source, &mut writer, &NoGate);
    if status != WRITE_FAILED && writer.hand_on().is_err() {
        return Ok(WRITE_FAILED);
    }
    Ok(status)
}

/// Runs a command line on an input.
pub fn run<R: AllocGlobal + Threads + Wait + Sync>(
    rt: &R,
    line: &str,
    input: &[u8],
    devices: Devices,
) -> Result<Answer> {
    let alloc = rt.alloc();
    let words = words_of(alloc, line)?;
    let failing_reads = vec![in alloc; devices.failing_read]?;
    let failing_writes = vec![in alloc; devices.failing_write]?;
    let mut source = MemSource::over(input.to_vec(alloc)?, failing_reads);
    let mut sink = MemSink::over(vec![in alloc; 0u8; devices.room]?, failing_writes);
    let status = match devices.at_a_time {
        0 => rtgs(rt, alloc, &words, &mut source, &mut sink, &NoGate),
        most => run_over_slow_writer(rt, &words, &mut source, &mut sink, most)?,
    };
    let written = sink.written().to_vec(alloc)?;
    Ok(Answer { status, written })
}
