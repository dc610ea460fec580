//! Cases over devices that fail.
use crate::case::Case;
use crate::memory::{Answer, Devices, WRITE_FAILED, run};
use crate::tally::Tally;
use anyhow::Result;
use outside_io::PIECE;
use std::sync::Wait;
use std::thread::Threads;

/// The status where a read failed.
const READ_FAILED: u8 = 4;

/// More reads than a run makes.
const MANY_READS: u64 = 10_000;

/// A writer that takes at most so many bytes at a call, or with 0 whole pieces; and which of its writes fail in turn: the
/// first, and of those after it each that is this many further on.
#[derive(Clone, Copy, Debug)]
struct Writer {
    at_a_time: usize,
    step: usize,
}

impl Writer {
    // How many bytes each write but the last takes.
    fn taken(self) -> usize {
        if self.at_a_time == 0 {
            PIECE
        } else {
            self.at_a_time
        }
    }
}

/// Writers that are tried on each write.
const WRITERS: [Writer; 3] = [
    Writer {
        at_a_time: 0,
        step: 1,
    },
    Writer {
        at_a_time: 7,
        step: 1,
    },
    Writer {
        at_a_time: 1,
        step: 1,
    },
];

/// Writers for a long text. The steps share no divisor with the pieces that the text is written in.
const LONG_WRITERS: [Writer; 3] = [
    Writer {
        at_a_time: 0,
        step: 1,
    },
    Writer {
        at_a_time: 7,
        step: 13,
    },
    Writer {
        at_a_time: 1,
        step: 97,
    },
];

fn run_on<R: AllocGlobal + Threads + Wait + Sync>(
    rt: &R,
    case: &Case,
    devices: Devices,
) -> Result<Answer> {
    run(rt, case.words.as_str(), &case.input, devices)
}

fn room_for(case: &Case) -> Devices {
    Devices::with_room(case.text.len())
}

// Whether all was written, with the status of the case.
fn is_whole(answer: &Answer, case: &Case) -> bool {
    answer.status == case.status && answer.written.as_slice() == case.text.as_slice()
}

// Whether nothing was written, since a read failed.
fn is_unread(answer: &Answer) -> bool {
    answer.status == READ_FAILED && answer.written.is_empty()
}

// Whether a front of this length of what has to be written was, since a write failed.
fn is_cut(answer: &Answer, case: &Case, length: usize) -> bool {
    answer.status == WRITE_FAILED
        && answer.written.len() == length
        && length < case.text.len()
        && case.text.starts_with(&answer.written)
}

// Each read fails in turn, until a run makes no read of that number.
fn reads_fail<R: AllocGlobal + Threads + Wait + Sync>(rt: &R, case: &Case) -> Result<bool> {
    for number in 1..MANY_READS {
        let devices = Devices {
            failing_read: number,
            ..room_for(case)
        };
        let answer = run_on(rt, case, devices)?;
        if is_whole(&answer, case) {
            return Ok(true);
        }
        if !is_unread(&answer) {
            return Ok(false);
        }
    }
    Ok(false)
}

// Runs a case over a writer of which one write fails. The first has number 0.
fn run_failing<R: AllocGlobal + Threads + Wait + Sync>(
    rt: &R,
    case: &Case,
    writer: Writer,
    number: usize,
) -> Result<Answer> {
    let devices = Devices {
        failing_write: (number as u64).saturating_add(1),
        at_a_time: writer.at_a_time,
        ..room_for(case)
    };
    run_on(rt, case, devices)
}

// Where a write fails, what the writes before it took was written, and no more.
fn is_cut_at<R: AllocGlobal + Threads + Wait + Sync>(
    rt: &R,
    case: &Case,
    writer: Writer,
    number: usize,
) -> Result<bool> {
    let answer = run_failing(rt, case, writer, number)?;
    Ok(is_cut(&answer, case, number.saturating_mul(writer.taken())))
}

// Writes fail in turn, the last one too; and where one is to fail that isn't made, all is written.
fn writes_fail<R: AllocGlobal + Threads + Wait + Sync>(
    rt: &R,
    case: &Case,
    writer: Writer,
) -> Result<bool> {
    let writes = case.text.len().div_ceil(writer.taken().max(1));
    for turn in 0..writes {
        let number = turn.saturating_mul(writer.step);
        if number < writes && !is_cut_at(rt, case, writer, number)? {
            return Ok(false);
        }
    }
    let is_last_cut = is_cut_at(rt, case, writer, writes.saturating_sub(1))?;
    Ok(is_last_cut && is_whole(&run_failing(rt, case, writer, writes)?, case))
}

// Over each room that is too small as many bytes are written as there is room for, and over one that suffices all of them.
fn rooms_fill<R: AllocGlobal + Threads + Wait + Sync>(rt: &R, case: &Case) -> Result<bool> {
    for room in 0..case.text.len() {
        let answer = run_on(rt, case, Devices::with_room(room))?;
        if !is_cut(&answer, case, room) {
            return Ok(false);
        }
    }
    Ok(is_whole(&run_on(rt, case, room_for(case))?, case))
}

/// Tries the cases over devices that fail, and prints those that don't end as they have to.
pub fn try_all<R: Print + AllocGlobal + Threads + Wait + Sync>(
    rt: &R,
    cases: &[Case],
) -> Result<Tally> {
    let mut tally = Tally::NONE;
    for case in cases {
        let about = case.about.as_str();
        tally.count(rt, reads_fail(rt, case)?, "failing reads", about)?;
        for writer in WRITERS {
            tally.count(rt, writes_fail(rt, case, writer)?, "failing writes", about)?;
        }
        tally.count(rt, rooms_fill(rt, case)?, "small rooms", about)?;
    }
    Ok(tally)
}

/// The same of cases whose text is too long to try each write and each room.
pub fn try_long<R: Print + AllocGlobal + Threads + Wait + Sync>(
    rt: &R,
    cases: &[Case],
) -> Result<Tally> {
    let mut tally = Tally::NONE;
    for case in cases {
        let about = case.about.as_str();
        tally.count(rt, reads_fail(rt, case)?, "failing reads", about)?;
        for writer in LONG_WRITERS {
            tally.count(rt, writes_fail(rt, case, writer)?, "failing writes", about)?;
        }
    }
    Ok(tally)
}
