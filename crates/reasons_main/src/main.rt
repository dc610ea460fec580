//! The program: the words after its name and the standard streams are handed to the top call, which does the rest.
#![tactic(auto)]

use day_reasons::reasons;
use outside_io::{StdSink, StdSource};
use program_answers::words_of;
use std::process::ExitCode;

fn main(rt: HostRuntime) -> ExitCode {
    let Ok(words) = words_of(&rt) else {
        return ExitCode::from(1);
    };
    let mut input = StdSource::over(rt.stdin());
    let mut output = StdSink::over(rt.stdout());
    ExitCode::from(reasons(rt.alloc(), &words, &mut input, &mut output))
}
