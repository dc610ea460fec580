//! The program: the words after its name and the standard streams, as one port, are handed to the top call, which does the rest.
#![tactic(auto)]

use outside_io::StdPort;
use party_gate::{LinePort, gate};
use program_answers::words_of;
use std::process::ExitCode;

fn main(rt: HostRuntime) -> ExitCode {
    let Ok(words) = words_of(&rt) else {
        return ExitCode::from(1);
    };
    let mut port = LinePort::over(StdPort::over(rt.stdin(), rt.stdout()));
    ExitCode::from(gate(&words, &mut port))
}
