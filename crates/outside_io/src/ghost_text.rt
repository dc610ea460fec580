//! A text that clauses alone see.
ghost use Rattle.std.specs.Prelude.{◌≡◌, ◌++◌, [], ◌∷◌};
ghost use Rattle.outside_io.specs.GhostTexts.{bytes_of};

use std::snapshot::Snapshot;

/// A text that clauses alone see. At run time it has no more than its last byte.
#[derive(Drop)]
pub enum GhostText {
    /// No byte.
    Nothing,
    /// One byte more.
    More {
        /// What was there.
        before: Snapshot<GhostText>,
        /// The byte.
        byte: u8,
    },
}

impl GhostText {
    /// One byte more.
    pub fn add(&mut self, byte: u8)
        ensures { bytes_of self.new ≡ bytes_of self.old ++ byte ∷ [] }
    {
        let before = Snapshot::of(&*self);
        *self = GhostText::More { before, byte };
    }

    /// All bytes of a piece more.
    pub fn add_all(&mut self, piece: &[u8])
        ensures { bytes_of self.new ≡ bytes_of self.old ++ piece.now }
    {
        for byte in piece {
            self.add(*byte);
        }
    }

    /// The bytes of a piece.
    pub fn of(piece: &[u8]) -> GhostText
        ensures { bytes_of result ≡ piece.now }
    {
        let mut text = GhostText::Nothing;
        text.add_all(piece);
        text
    }
}
