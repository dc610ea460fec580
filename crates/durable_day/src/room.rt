//! The room in which the bytes of one line are made, before they are put down on a disk.
ghost use Rattle.std.specs.Prelude.{◌≡◌, ◌+◌, ◌-◌, ◌≤◌, ◌^◌, [], ◌∷◌, ◌++◌, length, take, drop, min};
ghost use Rattle.std.specs.Int.{w32, to_be_bytes};
ghost use Rattle.outside_io.specs.Calls.{Puts};
ghost use Rattle.commit_journal.specs.Text.{line_text};
ghost use Rattle.durable_day.specs.Pieces.{behind_gate, room_size, room_state, unsealed};

use commit_journal::{Head, Move, put_line};
use outside_io::{Failed, Sink, WriteFault, put_all};
use std::marker::Model;

/// For how many bytes there is room: for the longest text of a line, which has at most 2 MiB, with its length in front and a gate
/// after it.
pub(crate) const ROOM_SIZE: usize = 2_097_157;

/// A sink in memory over a room of its own, which is emptied and used again.
#[derive(Drop)]
pub(crate) struct PieceRoom {
    room: Vec<u8>,
    used: usize,
    faults: u64,
    failed: bool,
}

impl Model for PieceRoom {
    ghost use Rattle.std.specs.Prelude.{◌≡◌, ◌≤◌, length, take};
    ghost use Rattle.durable_day.specs.Pieces.{OnRoom, room_size};

    ghost Value = { OnRoom };

    ghost view = { λ piece. record {
      written = take piece.used piece.room.items;
      faults = piece.faults;
      failed = piece.failed;
    } };

    ghost invariant = { λ piece. (length piece.room.items ≡ room_size) × (piece.used ≤ room_size) };
}

impl PieceRoom {
    /// An empty one.
    pub fn over(room: Vec<u8>) -> PieceRoom
        requires { length room.items ≡ room_size }
        ensures { result.written ≡ [] }
    {
        PieceRoom {
            room,
            used: 0,
            faults: 0,
            failed: false,
        }
    }

    /// What was written since it was emptied.
    pub fn bytes(&self) -> &[u8]
        ensures { result.now ≡ self.now.written }
    {
        &self.room[..self.used]
    }

    /// Empties it.
    pub fn clear(&mut self)
        ensures { self.new.written ≡ [] }
    {
        self.used = 0;
    }

    /// Puts four bytes in the place of the first four.
    pub fn put_front(&mut self, four: [u8; 4])
        requires { 4 ≤ length self.old.written }
        ensures { self.new.written ≡ four ++ drop 4 self.old.written }
    {
        put_four(&mut self.room, self.used, &four);
    }
}

// Puts four bytes in the place of the first four of those that are used.
fn put_four(room: &mut [u8], used: usize, four: &[u8])
    requires four { length four.now ≡ 4 }
    requires used { 4 ≤ used }
    requires room { used ≤ length room.old }
    ensures { take used room.new ≡ four.now ++ drop 4 (take used room.old) }
{
    room[..4].copy_from_slice(four);
}

// Copies as much of the piece as there is room for, from a place on.
fn put_at(room: &mut [u8], at: usize, piece: &[u8]) -> usize
    requires { at ≤ length room.old }
    ensures count { result ≡ min (length room.old - at) (length piece.now) }
    ensures bytes { take (at + result) room.new ≡ take at room.old ++ take result piece.now }
{
    let count = (room.len() - at).min(piece.len());
    room[at..at + count].copy_from_slice(&piece[..count]);
    count
}

impl Sink for PieceRoom {
    ghost state = { room_state };

    fn write(&mut self, piece: &[u8]) -> Result<usize, Failed> {
        if self.used == self.room.len() {
            self.faults = self.faults.saturating_add(1);
            self.failed = true;
            return Err(Failed);
        }
        let count = put_at(&mut self.room, self.used, piece);
        self.used += count;
        self.failed = false;
        Ok(count)
    }
}

fn put_text<S: Sink>(place: u32, head: Head, moves: &[Move], sink: &mut S) -> Result<(), WriteFault>
    ensures { Puts (S.state sink.old) (S.state sink.new)
        (line_text place (record { head = head; moves = moves.now }) ++ 0 ∷ []) result }
{
    put_line(place, head, moves, sink)?;
    put_all(sink, &[0])
}

fn put_unsealed<S: Sink>(
    place: u32,
    head: Head,
    moves: &[Move],
    sink: &mut S,
) -> Result<(), WriteFault>
    ensures { Puts (S.state sink.old) (S.state sink.new)
        (unsealed (line_text place (record { head = head; moves = moves.now }))) result }
{
    put_all(sink, &[0; 4])?;
    put_text(place, head, moves, sink)
}

// Puts the length of the text into its place.
fn seal(piece: &mut PieceRoom)
    requires long { 5 ≤ length piece.old.written }
    requires short { length piece.old.written ≤ room_size }
    ensures { piece.new.written
        ≡ to_be_bytes w32 (length piece.old.written - 5) ++ drop 4 piece.old.written }
{
    let count = (piece.bytes().len() - 5) as u32;
    piece.put_front(count.to_be_bytes());
}

/// Makes the bytes of the line at a place, from 1, that are to stand after its gate.
pub(crate) fn fill(piece: &mut PieceRoom, place: u32, head: Head, moves: &[Move])
    requires { length (line_text place (record { head = head; moves = moves.now })) ≤ 2 ^ 21 }
    ensures { piece.new.written
        ≡ behind_gate (line_text place (record { head = head; moves = moves.now })) }
{
    piece.clear();
    match put_unsealed(place, head, moves, piece) {
        Ok(()) => seal(piece),
        Err(_) => unreachable!(),
    }
}
