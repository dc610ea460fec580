//! Cases tried one after the other.
use crate::case::{Case, Given};
use crate::memory::{Answer, Devices, run};
use crate::tally::Tally;
use anyhow::Result;
use std::alloc::{AllocError, Global};
use std::sync::Wait;
use std::thread::Threads;

/// The bytes for which a sink has room beside what has to be written.
const SPARE_ROOM: usize = 65_536;

/// Lines that are picked from what the program wrote.
#[derive(Clone, Copy, Debug, PartialEq, Eq)]
enum Pick {
    All,
    Journal,
    AllButStatuses,
}

impl Pick {
    fn takes(self, line: &[u8]) -> bool {
        match self {
            Pick::All => true,
            Pick::Journal => line.starts_with(b"J;") || line.starts_with(b"M;"),
            Pick::AllButStatuses => !line.starts_with(b"S;"),
        }
    }
}

fn picked(alloc: Global, text: &[u8], pick: Pick) -> Result<Vec<u8>, AllocError> {
    let mut kept = Vec::new(alloc);
    for line in text.split_inclusive(|byte| *byte == b'\n') {
        if pick.takes(line) {
            kept.extend_from_slice(line)?;
        }
    }
    Ok(kept)
}

/// What was read and written in the last case that was given nothing.
#[derive(Drop)]
struct Before {
    input: Vec<u8>,
    output: Vec<u8>,
}

impl Before {
    fn new(alloc: Global) -> Before {
        Before {
            input: Vec::new(alloc),
            output: Vec::new(alloc),
        }
    }
}

// What the program reads in a case.
fn input_of(alloc: Global, case: &Case, before: &Before) -> Result<Vec<u8>, AllocError> {
    let pick = match case.given {
        Given::Nothing => return case.input.as_slice().to_vec(alloc),
        Given::Output => Pick::All,
        Given::Journal => Pick::Journal,
    };
    let mut input = before.input.as_slice().to_vec(alloc)?;
    input.extend_from_slice(picked(alloc, &before.output, pick)?.as_slice())?;
    input.extend_from_slice(&case.input)?;
    Ok(input)
}

// Whether a run ended and wrote as the case has it.
fn agrees(alloc: Global, case: &Case, answer: &Answer) -> Result<bool, AllocError> {
    let pick = if case.is_journal {
        Pick::AllButStatuses
    } else {
        Pick::All
    };
    let compared = picked(alloc, &answer.written, pick)?;
    Ok(answer.status == case.status && compared.as_slice() == case.text.as_slice())
}

// Runs a case, and says whether it came out as it has to.
fn holds<R: AllocGlobal + Threads + Wait + Sync>(
    rt: &R,
    case: &Case,
    before: &mut Before,
) -> Result<bool> {
    let alloc = rt.alloc();
    let input = input_of(alloc, case, before)?;
    let devices = Devices::with_room(case.text.len().saturating_add(SPARE_ROOM));
    let answer = run(rt, case.words.as_str(), &input, devices)?;
    let is_held = agrees(alloc, case, &answer)?;
    if case.given == Given::Nothing {
        *before = Before {
            input,
            output: answer.written,
        };
    }
    Ok(is_held)
}

/// Tries the cases of a file, and prints those that fail.
pub fn try_all<R: Print + AllocGlobal + Threads + Wait + Sync>(
    rt: &R,
    name: &str,
    cases: &[Case],
) -> Result<Tally> {
    let mut before = Before::new(rt.alloc());
    let mut tally = Tally::NONE;
    for case in cases {
        let passed = holds(rt, case, &mut before)?;
        tally.count(rt, passed, name, case.about.as_str())?;
    }
    Ok(tally)
}
