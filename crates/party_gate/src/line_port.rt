//! A port that reads and writes no more at once than a pipe takes whole.
ghost use Rattle.std.specs.Prelude.{◌≡◌, ◌<◌, ◌≤◌, ◌-◌, length, slice_index};
ghost use Rattle.outside_io.specs.TextLine.{line_feed};

use crate::passing::LONGEST_LINE;
use outside_io::{Failed, Port, Sink};

/// A port that hands on at most 4,096 bytes at once, and of these up to the last line feed, where there is one; and takes as many at
/// most. So whole lines that are written to it go out whole, and no two that write to one pipe mix theirs.
#[derive(Drop)]
pub struct LinePort<P> {
    below: P,
}

impl<P> LinePort<P> {
    /// In front of this port.
    pub fn over(below: P) -> LinePort<P>
        ensures { result.below ≡ below }
    {
        LinePort { below }
    }
}

// Where the last line feed stands.
fn last_feed(piece: &[u8]) -> Option<usize> {
    piece.iter().rposition(|b| *b == b'\n')
}

// How many bytes of a piece are written at once.
fn front_of(piece: &[u8]) -> usize
    requires { 0 < length piece.now }
    ensures some { 0 < result }
    ensures most { result ≤ length piece.now }
    ensures few { result ≤ 4096 }
{
    let most = piece.len().min(LONGEST_LINE);
    match last_feed(&piece[..most]) {
        Some(i) => if i < most { i + 1 } else { most },
        None => most,
    }
}

impl<P: Port> Sink for LinePort<P> {
    ghost state = { λ port. P.state port.below };

    fn write(&mut self, piece: &[u8]) -> Result<usize, Failed> {
        let count = front_of(piece);
        self.below.write(&piece[..count])
    }
}

impl<P: Port> Port for LinePort<P> {
    fn read(&mut self, buf: &mut [u8]) -> Result<usize, Failed> {
        let most = buf.len().min(LONGEST_LINE);
        self.below.read(&mut buf[..most])
    }
}
