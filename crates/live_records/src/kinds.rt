//! Which records are batches, which are entries, and which are messages or stops.

ghost use Rattle.std.specs.Prelude.{◌≡◌, ◌||◌, bytes_eq, codes};
ghost use Rattle.batch_records.specs.Flat.{has_entries};
ghost use Rattle.batch_records.specs.Made.{is_batch, is_entry, is_late};

use batch_records::RecordBody;
use record_rows::Row;

/// Whether a message is a batch.
pub(crate) fn is_batch_body(body: &RecordBody) -> bool
    ensures { result ≡ has_entries body.now }
{
    matches!(body, RecordBody::Batch { .. })
}

/// Whether a record is an entry.
#[tactic(auto, using(crate::proofs::RowKinds::names_entry))]
pub(crate) fn is_entry(row: &Row) -> bool
    ensures { result ≡ is_entry row.now }
{
    row.field(0) == b"ENT".as_slice()
}

/// Whether a record is a batch.
#[tactic(auto, using(crate::proofs::RowKinds::names_batch))]
pub(crate) fn is_batch(row: &Row) -> bool
    ensures { result ≡ is_batch row.now }
{
    row.field(0) == b"BAT".as_slice()
}

// Whether a word is one of three.
fn is_one_of(word: &[u8], first: &[u8], second: &[u8], third: &[u8]) -> bool
    ensures { result ≡ (bytes_eq word.now first.now || bytes_eq word.now second.now
        || bytes_eq word.now third.now) }
{
    word == first || word == second || word == third
}

// Whether a word names a message.
fn names_message(word: &[u8]) -> bool
    ensures { result ≡ ((bytes_eq word.now (codes "BAT") || bytes_eq word.now (codes "PAY")
        || bytes_eq word.now (codes "LIQ")) || (bytes_eq word.now (codes "OBJ")
        || bytes_eq word.now (codes "CNF") || bytes_eq word.now (codes "CYC"))) }
{
    is_one_of(word, b"BAT", b"PAY", b"LIQ") || is_one_of(word, b"OBJ", b"CNF", b"CYC")
}

// Whether a word names a message or a stop.
fn names_either(word: &[u8]) -> bool
    ensures { result ≡ ((bytes_eq word.now (codes "BAT") || bytes_eq word.now (codes "PAY")
        || bytes_eq word.now (codes "LIQ")) || (bytes_eq word.now (codes "OBJ")
        || bytes_eq word.now (codes "CNF") || bytes_eq word.now (codes "CYC"))
        || bytes_eq word.now (codes "TIM")) }
{
    names_message(word) || word == b"TIM".as_slice()
}

/// Whether a record is a message or a stop.
#[tactic(auto, using(crate::proofs::RowKinds::names_late))]
pub(crate) fn is_late(row: &Row) -> bool
    ensures { result ≡ is_late row.now }
{
    names_either(row.field(0))
}
