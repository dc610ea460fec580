//! A source, read so many bytes at a time.
ghost use Rattle.std.specs.Prelude.{◌≡◌, ◌<◌, ◌≤◌, length, IfOk};
ghost use Rattle.outside_io.specs.Causes.{CountsFaults};
ghost use Rattle.frame_log.specs.Reads.{Takes};

use crate::reader::Reader;
use outside_io::{Failed, Source};

/// A reader over a source.
#[derive(Drop)]
pub struct SourceReader<S> {
    pub source: S,
}

// Asks a source until the buffer is full, or the source has ended.
fn take_all<S: Source>(source: &mut S, buf: &mut [u8]) -> Result<bool, Failed>
    ensures taken { IfOk result (λ whole. Takes (S.left source.old) (S.left source.new) buf.new
        whole) }
    ensures count { CountsFaults (S.faults source.old) (S.faults source.new) result }
{
    let mut at = 0;
    while at < buf.len() {
        let piece = &mut buf[at..];
        match source.read(piece) {
            Ok(0) => return Ok(false),
            Ok(count) => at += count,
            Err(failed) => return Err(failed),
        }
    }
    Ok(true)
}

impl<S: Source> Reader for SourceReader<S> {
    ghost left = { λ reader. S.left reader.source };

    ghost faults = { λ reader. S.faults reader.source };

    ghost looks = { λ old new. Unit {0} };

    ghost looks_on = { λ a b c first second. tt };

    fn take(&mut self, buf: &mut [u8]) -> Result<bool, Failed> {
        take_all(&mut self.source, buf)
    }
}
