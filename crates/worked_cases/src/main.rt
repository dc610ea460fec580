//! Worked cases, tried by the top call over memory.
//!
//! `data/` has the cases. What has to be written in each was worked out from the rules, and not by the program. In a file
//! `NAME.txt` cases stand apart by an empty line. A case is
//!
//! - lines `# ..`, which say what it shows;
//! - `> WORDS`, the words of the command line, or `>` alone, where there are none;
//! - what the program is to read;
//! - `< STATUS`, or `<< STATUS`, where the last line that is read has no line end. With `< STATUS journal` the lines `S;..`,
//!   the status messages, are left out before what was written is compared;
//! - what has to be written.
//!
//! With `>> WORDS` the program reads what it read in the last case with `>`, and then what it wrote in that case, status
//! messages and all. With `>J WORDS` the latter is its journal alone, the lines `J;..` and `M;..`.
//!
//! The cases of `failing_devices.txt` are also tried with each read failing, with each write failing, and with room for each
//! number of bytes. `refusals` is a table of inputs that are no day, whose head has its form. Large days are made here.
//!
//! The file `stdout` has how many cases each file has, so it changes with a case more.
#![tactic(auto)]

use anyhow::Context;
use case::{Case, cases_of};
use refusal::refusals_of;
use std::alloc::Global;
use std::fs;
use std::process::ExitCode;
use std::rt::Files;
use std::sync::Wait;
use std::thread::Threads;
use tally::Tally;

mod case;
mod failing;
mod large;
mod memory;
mod refusal;
mod suite;
mod tally;

/// The table of inputs that are no day, and the cases that are tried over failing devices.
const REFUSALS: &str = "refusals";

const FAILING: &str = "failing_devices.txt";

fn is_of_cases(name: &str) -> bool {
    name == REFUSALS || name.ends_with(".txt")
}

// The names of the files with cases, in their order.
fn names_of<R: Files + AllocGlobal + Clone + Drop>(rt: &R) -> anyhow::Result<Vec<String>> {
    let mut names = Vec::new(rt.alloc());
    for entry in fs::read_dir(rt, ".")? {
        let entry = entry?;
        if is_of_cases(entry.file_name()) {
            names.push(String::from_str(rt.alloc(), entry.file_name())?)?;
        }
    }
    names.sort()?;
    Ok(names)
}

fn cases_in(alloc: Global, name: &str, file: &str) -> anyhow::Result<Vec<Case>> {
    if name == REFUSALS {
        refusals_of(alloc, file)
    } else {
        cases_of(alloc, file)
    }
}

fn try_file<R: Files + Print + AllocGlobal + Threads + Wait + Sync>(
    rt: &R,
    name: &str,
) -> anyhow::Result<Tally> {
    let file = fs::read_to_string(rt, name)?;
    let cases = cases_in(rt.alloc(), name, file.as_str())?;
    let tally = suite::try_all(rt, name, &cases)?;
    tally.say(rt, name)?;
    if name != FAILING {
        return Ok(tally);
    }
    let failing = failing::try_all(rt, &cases)?;
    failing.say(rt, "the same over devices that fail")?;
    Ok(tally.and(failing))
}

fn try_large<R: Print + AllocGlobal + Threads + Wait + Sync>(rt: &R) -> anyhow::Result<Tally> {
    let cases = large::large_cases(rt.alloc())?;
    let tally = suite::try_all(rt, "large days", &cases)?;
    tally.say(rt, "large days")?;
    Ok(tally)
}

fn try_long<R: Print + AllocGlobal + Threads + Wait + Sync>(rt: &R) -> anyhow::Result<Tally> {
    let cases = large::long_cases(rt.alloc())?;
    let whole = suite::try_all(rt, "long outputs", &cases)?;
    let tally = whole.and(failing::try_long(rt, &cases)?);
    tally.say(rt, "long outputs, over devices that fail too")?;
    Ok(tally)
}

fn main(rt: HostRuntime) -> anyhow::Result<ExitCode> {
    let mut all = Tally::NONE;
    for name in &names_of(&rt)? {
        let tally = try_file(&rt, name.as_str()).context(format_args!("in {name}"))?;
        all = all.and(tally);
    }
    all = all.and(try_large(&rt)?);
    all = all.and(try_long(&rt)?);
    all.say(&rt, "all")?;
    Ok(if all.failed == 0 {
        ExitCode::SUCCESS
    } else {
        ExitCode::FAILURE
    })
}
