//! The fields of a record, as many and as much of each as any record of a day needs.
ghost use Rattle.std.specs.Prelude.{◌≡◌, ◌≤◌, ◌∷◌, ◌++◌, [], List, ℕ, get_or, length};
ghost use Rattle.csv.specs.Records.{fields_of};
ghost use Rattle.record_rows.specs.Rows.{Fields, kept_field, kept_row};

use arrayvec::ArrayVec;
use csv::ByteRecord;
use std::marker::Model;

// The first 64 bytes of a text, all where it has no more.
fn front(text: &[u8]) -> &[u8]
    ensures value { result.now ≡ kept_field text.now }
    ensures few { length result.now ≤ 64 }
{
    if text.len() <= 64 { text } else { &text[..64] }
}

// A field that `csv` has read, empty where there is none.
#[tactic(auto, using(crate::proofs::FieldFacts::field_found, crate::proofs::FieldFacts::field_missing))]
fn field_of(read: &ByteRecord, i: usize) -> &[u8]
    ensures { result.now ≡ get_or (fields_of read.now) i [] }
{
    read.get(i).unwrap_or(b"")
}

/// The first 64 bytes of a field, which contracts see as the list of its bytes.
#[derive(Drop, Default)]
pub(crate) struct Field {
    bytes: ArrayVec<u8, 64>,
}

impl Model for Field {
    ghost use Rattle.std.specs.Prelude.{List, ℕ};

    ghost Value = { List ℕ };

    ghost view = { λ field. field.bytes.items };
}

impl Field {
    /// A field without bytes.
    pub fn new() -> Field
        ensures { result ≡ [] }
    {
        Field {
            bytes: ArrayVec::new(),
        }
    }

    /// What is kept of a field with these bytes.
    pub fn of(text: &[u8]) -> Field
        ensures { result ≡ kept_field text.now }
    {
        let mut bytes = ArrayVec::new();
        match bytes.try_extend_from_slice(front(text)) {
            Ok(()) => Field { bytes },
            Err(_) => unreachable!(),
        }
    }

    /// The bytes.
    pub fn as_bytes(&self) -> &[u8]
        ensures { result.now ≡ self.now }
    {
        self.bytes.as_slice()
    }

    /// One byte more of a field of which this is kept.
    pub fn push(&mut self, b: u8)
        ensures { (field : List ℕ) → self.old ≡ kept_field field → self.new ≡ kept_field (field ++ b ∷ []) }
    {
        if !self.bytes.is_full() {
            self.bytes.push(b);
        }
    }
}

/// The fields of a record: the first sixteen of them, and of each the first 64 bytes. Contracts see the list of the fields, each
/// the list of its bytes.
#[derive(Drop)]
pub struct Row {
    fields: ArrayVec<Field, 16>,
}

impl Model for Row {
    ghost use Rattle.record_rows.specs.Rows.{Fields};

    ghost Value = { Fields };

    ghost view = { λ row. row.fields.items };
}

impl Row {
    /// No fields.
    pub fn new() -> Row
        ensures { result ≡ [] }
    {
        Row {
            fields: ArrayVec::new(),
        }
    }

    /// How many fields there are, at most sixteen.
    pub fn len(&self) -> usize
        ensures { result ≡ length self.now }
    {
        self.fields.len()
    }

    /// The field at a place from 0, empty where there is none.
    pub fn field(&self, i: usize) -> &[u8]
        ensures { result.now ≡ get_or self.now i [] }
    {
        match self.fields.as_slice().get(i) {
            Some(field) => field.as_bytes(),
            None => b"",
        }
    }

    /// No fields any more.
    pub fn clear(&mut self)
        ensures { self.new ≡ [] }
    {
        self.fields.clear();
    }

    /// The fields of a record that `csv` has read, in place of those before.
    pub fn fill(&mut self, read: &ByteRecord)
        ensures { self.new ≡ kept_row (fields_of read.now) }
    {
        self.clear();
        for i in 0..read.len() {
            self.push(Field::of(field_of(read, i)));
        }
    }

    /// One field more of a record of which this is kept.
    pub(crate) fn push(&mut self, field: Field)
        ensures { (row : Fields) (text : List ℕ) → self.old ≡ kept_row row → field ≡ kept_field text
            → self.new ≡ kept_row (row ++ text ∷ []) }
    {
        if !self.fields.is_full() {
            self.fields.push(field);
        }
    }
}
