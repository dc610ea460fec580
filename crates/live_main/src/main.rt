//! The program: the words after its name and the standard streams, as one port, are handed to the calls below, which do the rest.
#![tactic(auto)]

mod keeping;
mod looking;

use cash_amounts::Words;
use keeping::keep_file;
use kept_day::{Command, command_of, put_usage};
use live_day::live;
use looking::{count_file, show_file};
use outside_io::{Sink, StdPort, StdSink};
use program_answers::words_of;
use std::process::ExitCode;

// A day of which nothing is kept.
fn run(rt: &HostRuntime, words: &Words) -> u8 {
    let mut port = StdPort::over(rt.stdin(), rt.stdout());
    live(rt.alloc(), words, &mut port)
}

// Tells that the words are no command line.
fn refuse<S: Sink>(sink: &mut S) -> u8 {
    match put_usage(sink) {
        Ok(()) => 2,
        Err(_) => 5,
    }
}

// The word that names the file, and the empty word where there is none.
fn file_in(words: &Words) -> &str {
    if words.len() > 1 { words.word(1) } else { "" }
}

fn main(rt: HostRuntime) -> ExitCode {
    let Ok(words) = words_of(&rt) else {
        return ExitCode::from(1);
    };
    let status = match command_of(&words) {
        Command::Runs => run(&rt, &words),
        Command::Keeps(skip) => keep_file(&rt, file_in(&words), skip),
        Command::Counts => count_file(&rt, file_in(&words)),
        Command::Shows => show_file(&rt, file_in(&words)),
        Command::Wrong => refuse(&mut StdSink::over(rt.stderr())),
        Command::Other => refuse(&mut StdSink::over(rt.stdout())),
    };
    ExitCode::from(status)
}
