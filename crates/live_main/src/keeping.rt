//! A day that is kept on a file.
ghost use Rattle.std.specs.Prelude.{◌≡◌};

use file_disk::{FileDisk, OpenFault, open_disk};
use frame_log::{GateLog, Opened, open};
use kept_day::{keep, put_busy, put_foreign, put_short};
use kept_port::{KeptPort, Log};
use outside_io::{PIECE, StdPort, StdSink};
use program_answers::MAX_INPUT;

// The longest file of a kept text: a frame for each byte.
const LONGEST: usize = 38 * (MAX_INPUT + 1) + 17;

// The day, over the standard streams. Of what it tells so many bytes were written before.
fn keep_log(rt: &HostRuntime, log: GateLog<FileDisk>, text: Vec<u8>, skip: u64) -> u8
    requires { text.items ≡ ⟦<GateLog<FileDisk> as Log>⟧.sure log }
{
    let mut text = text;
    if text.reserve(PIECE).is_err() {
        return 1;
    }
    let below = StdPort::over(rt.stdin(), rt.stdout());
    let mut port = KeptPort::over(below, log, text, skip);
    let status = keep(rt.alloc(), &mut port);
    if status == 6 {
        let mut told = StdSink::over(rt.stderr());
        let _ = put_short(skip.saturating_sub(port.left_to_skip()), &mut told);
    }
    status
}

// Tells that the file is foreign, by this frame.
fn refuse_foreign(rt: &HostRuntime, frame: u64) -> u8 {
    let mut told = StdSink::over(rt.stderr());
    let _ = put_foreign(frame, &mut told);
    9
}

// Why a file wasn't opened.
fn refuse_open(rt: &HostRuntime, fault: OpenFault) -> u8 {
    match fault {
        OpenFault::Busy => {
            let mut told = StdSink::over(rt.stderr());
            let _ = put_busy(&mut told);
            10
        }
        OpenFault::Refused => 8,
        OpenFault::Memory => 1,
    }
}

/// Settles a live day and keeps it on the file at this path.
pub(crate) fn keep_file(rt: &HostRuntime, path: &str, skip: u64) -> u8 {
    let disk = match open_disk(rt, path, LONGEST) {
        Ok(disk) => disk,
        Err(fault) => return refuse_open(rt, fault),
    };
    match open(rt.alloc(), disk, MAX_INPUT + 1) {
        Opened::Log { log, text } => keep_log(rt, log, text, skip),
        Opened::Foreign { frame, .. } => refuse_foreign(rt, frame),
        Opened::Fault { .. } => 8,
        Opened::Size { .. } => refuse_foreign(rt, 0),
        Opened::Memory { .. } => 1,
    }
}
