//! The journal: lines in the order of pushing. To a contract it is its history, the newest line first, with the room left.
ghost use Rattle.std.specs.Prelude.{◌≡◌, ◌+◌, ◌-◌, ◌<◌, ◌≤◌, ◌∷◌, length, IfOk};
ghost use Rattle.commit_journal.specs.Kept.{with_room, pushed};
ghost use Rattle.commit_journal.specs.Histories.{oldest, moves_of};

use crate::line::{Head, Move};
use cash_amounts::{LinePlace, Memory};
use refused_memory::with_capacity;
use std::alloc::Global;
use std::marker::Model;

// A line as it is stored: its head, and where its moves stand.
#[derive(Clone, Copy)]
struct Stored {
    head: Head,
    from: u32,
    count: u32,
}

/// Lines with their moves, whatever they say. The room for them is taken at the start. Contracts see the history, the
/// newest line first, and the room that is left.
#[derive(Drop)]
pub struct Journal {
    stored: Vec<Stored>,
    moves: Vec<Move>,
    most_lines: u32,
    most_moves: u32,
}

impl Model for Journal {
    ghost use Rattle.commit_journal.specs.Kept.{Kept};

    ghost Value = { Kept };

    ghost use Rattle.commit_journal.specs.Stored.{kept_of, IsStored};

    ghost view = { kept_of };

    ghost invariant = { IsStored };
}

impl Journal {
    /// The empty journal, with room for so many lines and so many moves in all of them. `Memory` says that there wasn't
    /// that much.
    pub fn with_room(alloc: Global, lines: u32, moves: u32) -> Result<Journal, Memory>
        ensures { IfOk result (λ j. j ≡ with_room lines moves) }
    {
        let stored = with_capacity(alloc, lines as usize)?;
        let list = with_capacity(alloc, moves as usize)?;
        Ok(Journal {
            stored,
            moves: list,
            most_lines: lines,
            most_moves: moves,
        })
    }

    /// Puts a line at the end, with its moves in their order. The other lines stay. Takes no memory, but needs room for the
    /// line and for all its moves.
    pub fn push(&mut self, head: Head, moves: &[Move])
        requires room { 0 < self.old.room_for_lines }
        requires room_for_moves { length moves.now ≤ self.old.room_for_moves }
        ensures { self.new ≡ pushed self.old head moves.now }
    {
        let from = self.moves.len() as u32;
        self.stored
            .push(Stored {
                head,
                from,
                count: moves.len() as u32,
            })
            .unwrap();
        self.moves.extend_from_slice(moves).unwrap();
    }

    /// How many lines there are, which is the place of the newest.
    pub fn len(&self) -> u32
        ensures { result ≡ length self.now.history }
    {
        self.stored.len() as u32
    }

    /// For how many more lines there is room.
    pub fn spare(&self) -> u32
        ensures { result ≡ self.now.room_for_lines }
    {
        self.most_lines - self.stored.len() as u32
    }

    // The line after the first `place` lines.
    fn line_after(&self, place: u32) -> (Head, &[Move])
        requires { place < length self.now.history }
        ensures { oldest self.now.history (place + 1)
            ≡ record { head = result.0; moves = result.1.now } ∷ oldest self.now.history place }
    {
        let one = self.stored[place as usize];
        let moves = self.moves.as_slice();
        let from = one.from as usize;
        let end = from + one.count as usize;
        let mine = &moves[from..end];
        (one.head, mine)
    }

    /// The line at a place, counted from 1 in the order of pushing: its head and its moves.
    pub fn line(&self, place: LinePlace) -> (Head, &[Move])
        requires from { 1 ≤ place }
        requires to { place ≤ length self.now.history }
        ensures { oldest self.now.history place
            ≡ record { head = result.0; moves = result.1.now }
            ∷ oldest self.now.history (place - 1) }
    {
        self.line_after(place - 1)
    }

    /// The moves of all lines, in the order of pushing.
    pub fn moves(&self) -> &[Move]
        ensures { result.now ≡ moves_of self.now.history }
    {
        self.moves.as_slice()
    }
}
