//! How a name is put into keys, so that no two names have the same.
ghost use Rattle.std.specs.Prelude.{◌≡◌, ◌+◌, ◌≤◌, slice_index, IsTrue};
ghost use Rattle.cash_amounts.specs.Names.{is_id, is_name};
ghost use Rattle.message_names.specs.Packing.{word_at};
ghost use Rattle.message_names.specs.Stored.{sender_key, name_key};

use cash_amounts::{MsgId, Name};
use first_of_key::Key;

// The byte at a place, 0 after the last.
fn byte(text: &[u8], i: usize) -> u8
    ensures { result ≡ slice_index text.now i }
{
    match text.get(i) {
        Some(byte) => *byte,
        None => 0,
    }
}

// The eight bytes from a place on, as one word.
#[tactic(auto, unfolding(crate::specs::Packing::word_at, crate::specs::Packing::eight_from))]
fn word(text: &[u8], i: usize) -> u64
    requires { i ≤ 64 }
    ensures { result ≡ word_at text.now i }
{
    u64::from_be_bytes([
        byte(text, i),
        byte(text, i + 1),
        byte(text, i + 2),
        byte(text, i + 3),
        byte(text, i + 4),
        byte(text, i + 5),
        byte(text, i + 6),
        byte(text, i + 7),
    ])
}

#[tactic(auto, unfolding(crate::specs::Packing::words_from))]
pub(crate) fn sender_key(sender: &Name) -> Key
    ensures key { result ≡ sender_key sender.now }
    ensures grammar { IsTrue (is_name sender.now) }
{
    let text = sender.as_bytes();
    Key {
        words: [
            word(text, 0),
            word(text, 8),
            word(text, 16),
            word(text, 24),
            word(text, 32),
            word(text, 40),
        ],
    }
}

// By the number of the first name with the same sender.
#[tactic(auto, unfolding(crate::specs::Packing::words_from))]
pub(crate) fn name_key(first: u32, id: &MsgId) -> Key
    ensures key { result ≡ name_key first id.now }
    ensures grammar { IsTrue (is_id id.now) }
{
    let text = id.as_bytes();
    Key {
        words: [
            first as u64,
            word(text, 0),
            word(text, 8),
            word(text, 16),
            word(text, 24),
            word(text, 32),
        ],
    }
}
