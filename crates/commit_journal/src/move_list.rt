//! Lists of moves.
ghost use Rattle.std.specs.Prelude.{◌≡◌, ◌<◌, ◌+◌, ◌-◌, [], ◌∷◌, ◌++◌, length, IfOk};

use crate::line::Move;
use cash_amounts::{MAX_ENTRIES, Memory};
use refused_memory::with_capacity;
use std::alloc::Global;
use std::marker::Model;

/// How many moves a line may have: one for each entry of a batch.
pub const MAX_MOVES: u32 = MAX_ENTRIES as u32;

/// Moves in the order of pushing. The room for them is taken at the start. Contracts see them, and for how many more there
/// is room.
#[derive(Drop)]
pub struct MoveList {
    moves: Vec<Move>,
    most: u32,
}

impl Model for MoveList {
    ghost use Rattle.std.specs.Prelude.{◌-◌, ◌≤◌, vec_len, vec_capacity};
    ghost use Rattle.commit_journal.specs.Kept.{MovesInRoom};

    ghost Value = { MovesInRoom };

    ghost view = { λ l. record { moves = l.moves.items; room = l.most - vec_len l.moves } };

    ghost invariant = { λ l. (vec_len l.moves ≤ l.most) × (l.most ≤ vec_capacity l.moves) };
}

impl MoveList {
    /// The empty list, with room for so many moves. `Memory` says that there wasn't that much.
    pub fn with_room(alloc: Global, n: u32) -> Result<MoveList, Memory>
        ensures { IfOk result (λ list. list ≡ record { moves = []; room = n }) }
    {
        let moves = with_capacity(alloc, n as usize)?;
        Ok(MoveList { moves, most: n })
    }

    /// Puts a move at the end. The others stay. Takes no memory, but needs room for one.
    pub fn push(&mut self, m: Move)
        requires { 0 < self.old.room }
        ensures { self.new ≡ record { moves = self.old.moves ++ m ∷ []; room = self.old.room - 1 } }
    {
        self.moves.push(m).unwrap();
    }

    /// Takes all moves away. There is then the room that there was at the start.
    pub fn clear(&mut self)
        ensures { self.new ≡ record { moves = []; room = self.old.room + length self.old.moves } }
    {
        self.moves.clear();
    }

    /// The moves, in the order in which they were pushed.
    pub fn as_slice(&self) -> &[Move]
        ensures { result.now ≡ self.now.moves }
    {
        self.moves.as_slice()
    }
}
