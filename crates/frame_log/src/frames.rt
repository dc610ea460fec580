//! The bytes of a frame.
ghost use Rattle.std.specs.Prelude.{◌≡◌, ◌+◌, ◌<◌, ◌≤◌, [], ◌∷◌, ◌++◌, length, take};
ghost use Rattle.std.specs.Int.{w32, to_be_bytes};
ghost use Rattle.kept_text.specs.Frames.{chained, first_digest, most};

use sha2::{Digest, Sha256};

/// `GAURVISK KEPT 1` and LF.
pub(crate) const HEADER: [u8; 16] = *b"GAURVISK KEPT 1\n";

/// How many bytes a piece has at most.
pub(crate) const MOST: usize = 16_384;

/// The length and the digest in front of a text, behind its gate.
pub(crate) const FRONT: usize = 36;

/// For a frame with the longest text, and a gate after it.
pub(crate) const ROOM: usize = 16_421;

/// The digest of the header.
pub(crate) fn first_digest() -> [u8; 32]
    ensures { result ≡ first_digest }
{
    Sha256::digest(HEADER)
}

/// The digest of a frame with this text.
pub(crate) fn digest_of(before: &[u8], text: &[u8]) -> [u8; 32]
    ensures { result ≡ chained before.now text.now }
{
    let mut hasher = Sha256::new();
    hasher.update(before);
    hasher.update(text);
    hasher.finalize()
}

// Puts a piece at a place, and answers the place after it.
fn put(room: &mut [u8], at: usize, piece: &[u8]) -> usize
    requires { at + length piece.now ≤ length room.old }
    ensures end { result ≡ at + length piece.now }
    ensures bytes { take result room.new ≡ take at room.old ++ piece.now }
{
    room[at..at + piece.len()].copy_from_slice(piece);
    at + piece.len()
}

// Puts the length of a text and its digest in front.
fn put_front(room: &mut [u8], digest: &[u8; 32], text: &[u8]) -> usize
    requires room { length room.old ≡ ROOM }
    requires small { length text.now ≤ most }
    ensures end { result ≡ 36 }
    ensures bytes { take 36 room.new ≡ to_be_bytes w32 (length text.now) ++ digest.now }
{
    let count = text.len() as u32;
    let four = count.to_be_bytes();
    let at = put(room, 0, &four);
    put(room, at, digest.as_slice())
}

/// Puts the frame of a text into the room, and a closed gate after it: how many bytes.
pub(crate) fn put_frame(room: &mut [u8], digest: &[u8; 32], text: &[u8]) -> usize
    requires room { length room.old ≡ ROOM }
    requires small { length text.now ≤ most }
    ensures end { result ≡ 37 + length text.now }
    ensures bytes { take result room.new
        ≡ ((to_be_bytes w32 (length text.now) ++ digest.now) ++ text.now) ++ 0 ∷ [] }
{
    let front = put_front(room, digest, text);
    let end = put(room, front, text);
    put(room, end, &[0])
}
