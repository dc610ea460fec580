//! What was done to a file, for contracts alone.
ghost use Rattle.std.specs.Prelude.{◌≡◌, ◌∷◌};
ghost use Rattle.file_disk.specs.Notes.{notes_of};

use outside_io::GhostText;
use std::snapshot::Snapshot;

/// The calls of a file, the newest last. At run time it has no more than which came last.
#[derive(Drop)]
pub(crate) enum Record {
    /// None yet.
    Nothing,
    /// One more: which call, what the clock showed after it, an offset, and bytes.
    Noted {
        before: Snapshot<Record>,
        call: u64,
        moment: u64,
        at: u64,
        bytes: GhostText,
    },
}

impl Record {
    /// One call more.
    pub(crate) fn note(&mut self, call: u64, moment: u64, at: u64, bytes: &[u8])
        ensures { notes_of self.new ≡ (call, moment, at, bytes.now) ∷ notes_of self.old }
    {
        let bytes = GhostText::of(bytes);
        let before = Snapshot::of(&*self);
        *self = Record::Noted {
            before,
            call,
            moment,
            at,
            bytes,
        };
    }
}
