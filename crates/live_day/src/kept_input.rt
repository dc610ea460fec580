//! What a run that goes on is told first, kept until it is whole.
ghost use Rattle.std.specs.Prelude.{◌≡◌, ◌≤◌, ◌+◌, ◌++◌, [], IfOk, length, vec_capacity};
ghost use Rattle.program_answers.specs.Limits.{longest_input, longest_long_input};

use program_answers::{MAX_INPUT, MAX_LONG_INPUT};
use refused_memory::{Memory, with_capacity};
use std::alloc::Global;

// The lines of both headers, with their line ends.
const HEADERS: usize = 35;

/// How many bytes of an input there may be that goes on after a break.
pub(crate) const LONGEST_RESUMED: usize = HEADERS + MAX_INPUT + MAX_LONG_INPUT;

// And one byte more.
const ROOM: usize = LONGEST_RESUMED + 1;

/// Bytes of an input, with room for the most that come before it goes on.
#[derive(Drop)]
pub(crate) struct KeptInput {
    bytes: Vec<u8>,
    ghost room: { 36 + longest_input + longest_long_input ≤ vec_capacity bytes },
}

impl KeptInput {
    /// No bytes. An error says that memory was wanting; none is taken later.
    pub(crate) fn with_room(alloc: Global) -> Result<KeptInput, Memory>
        ensures { IfOk result (λ kept. kept.bytes.items ≡ []) }
    {
        let bytes = with_capacity(alloc, ROOM)?;
        Ok(KeptInput { bytes })
    }

    /// The bytes.
    pub(crate) fn bytes(&self) -> &[u8]
        ensures { result.now ≡ self.now.bytes.items }
    {
        self.bytes.as_slice()
    }

    /// Takes the bytes that come next.
    pub(crate) fn add(&mut self, piece: &[u8])
        requires { length self.old.bytes.items + length piece.now ≤ 36 + longest_input + longest_long_input }
        ensures { self.new.bytes.items ≡ self.old.bytes.items ++ piece.now }
    {
        match self.bytes.extend_from_slice(piece) {
            Ok(()) => {}
            Err(_) => unreachable!(),
        }
    }
}
