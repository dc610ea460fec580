//! Names of accounts, banks and systems, and identifications of messages.
ghost use Rattle.std.specs.Prelude.{◌≡◌, refl, ◌≤◌, ◌==◌, IsTrue, Some, length, take, bytes_eq};
ghost use Rattle.std.specs.List.{list_all};
ghost use Rattle.std.specs.Option.{SomeIff};
ghost use Rattle.std.specs.Ordering.{nat_cmp};
ghost use Rattle.std.specs.Cmp.{partial_equiv_from_equiv, unsigned_po};
ghost use Rattle.std.specs.Cmp.Lexicographic.{slice_cmp, slice_partial_cmp, lists_po, lists_agrees, nat_list_cmp_total, nat_list_eq_equiv, texts_ties};
ghost use Rattle.std.specs.Cmp.Rules.{hashing};
ghost use Rattle.std.proofs.Common.{rules};
ghost use Rattle.cash_amounts.specs.Names.{is_name, is_name_byte, is_id, is_id_byte};

use std::cmp::Ordering;
use std::hash::{Hash, Hasher};
use std::marker::Model;

/// A name of 1 to 34 capital letters and digits, which contracts see as the list of its bytes.
#[derive(Drop, Debug)]
pub struct Name {
    bytes: [u8; 34],
    length: u8,
}

impl Model for Name {
    ghost use Rattle.std.specs.Prelude.{List, ℕ, IsTrue, ◌≤◌, take};
    ghost use Rattle.cash_amounts.specs.Names.{is_name};

    ghost Value = { List ℕ };

    ghost view = { λ name. take name.length name.bytes };

    ghost invariant = { λ name. (name.length ≤ 34) × IsTrue (is_name (take name.length name.bytes)) };
}

impl PartialEq for Name {
    ghost eq = { bytes_eq };

    ghost laws = { partial_equiv_from_equiv nat_list_eq_equiv };

    fn eq(&self, other: &Name) -> bool {
        self.as_bytes() == other.as_bytes()
    }
}

impl Eq for Name {
    ghost laws = { nat_list_eq_equiv };
}

impl PartialOrd for Name {
    ghost partial_cmp = { slice_partial_cmp (λ x y. Some (nat_cmp x y)) };

    ghost laws = { lists_po unsigned_po };

    fn partial_cmp(&self, other: &Name) -> Option<Ordering> {
        self.as_bytes().partial_cmp(&other.as_bytes())
    }
}

impl Ord for Name {
    ghost cmp = { slice_cmp nat_cmp };

    ghost total = { nat_list_cmp_total };

    ghost matches_partial_cmp = { lists_agrees (λ _ _. refl) };

    ghost matches_eq = { texts_ties };

    fn cmp(&self, other: &Name) -> Ordering {
        self.as_bytes().cmp(&other.as_bytes())
    }
}

// One write of all bytes, so that a hasher takes them by words.
impl Hash for Name {
    ghost use Rattle.std.specs.Prelude.{[], ◌∷◌};

    ghost hash_input = { λ name. name ∷ [] };

    ghost respects_eq = { Prim.search (hashing, rules) };

    fn hash<H: Hasher>(&self, state: &mut H) {
        state.write(self.as_bytes());
    }
}

/// An identification of 1 to 35 letters, digits and dashes, which contracts see as the list of its bytes.
#[derive(Drop, Debug)]
pub struct MsgId {
    bytes: [u8; 35],
    length: u8,
}

impl Model for MsgId {
    ghost use Rattle.std.specs.Prelude.{List, ℕ, IsTrue, ◌≤◌, take};
    ghost use Rattle.cash_amounts.specs.Names.{is_id};

    ghost Value = { List ℕ };

    ghost view = { λ id. take id.length id.bytes };

    ghost invariant = { λ id. (id.length ≤ 35) × IsTrue (is_id (take id.length id.bytes)) };
}

impl PartialEq for MsgId {
    ghost eq = { bytes_eq };

    ghost laws = { partial_equiv_from_equiv nat_list_eq_equiv };

    fn eq(&self, other: &MsgId) -> bool {
        self.as_bytes() == other.as_bytes()
    }
}

impl Eq for MsgId {
    ghost laws = { nat_list_eq_equiv };
}

impl PartialOrd for MsgId {
    ghost partial_cmp = { slice_partial_cmp (λ x y. Some (nat_cmp x y)) };

    ghost laws = { lists_po unsigned_po };

    fn partial_cmp(&self, other: &MsgId) -> Option<Ordering> {
        self.as_bytes().partial_cmp(&other.as_bytes())
    }
}

impl Ord for MsgId {
    ghost cmp = { slice_cmp nat_cmp };

    ghost total = { nat_list_cmp_total };

    ghost matches_partial_cmp = { lists_agrees (λ _ _. refl) };

    ghost matches_eq = { texts_ties };

    fn cmp(&self, other: &MsgId) -> Ordering {
        self.as_bytes().cmp(&other.as_bytes())
    }
}

impl Hash for MsgId {
    ghost use Rattle.std.specs.Prelude.{[], ◌∷◌};

    ghost hash_input = { λ id. id ∷ [] };

    ghost respects_eq = { Prim.search (hashing, rules) };

    fn hash<H: Hasher>(&self, state: &mut H) {
        state.write(self.as_bytes());
    }
}

fn is_name_byte(byte: u8) -> bool
    ensures { result ≡ is_name_byte byte }
{
    matches!(byte, b'A'..=b'Z' | b'0'..=b'9')
}

fn has_name_bytes(text: &[u8]) -> bool
    ensures { result ≡ list_all is_name_byte text.now }
{
    text.iter().all(|byte| is_name_byte(*byte))
}

fn is_name(text: &[u8]) -> bool
    ensures { result ≡ is_name text.now }
{
    !text.is_empty() && text.len() <= 34 && has_name_bytes(text)
}

fn is_id_byte(byte: u8) -> bool
    ensures { result ≡ is_id_byte byte }
{
    matches!(byte, b'A'..=b'Z' | b'a'..=b'z' | b'0'..=b'9' | b'-')
}

fn has_id_bytes(text: &[u8]) -> bool
    ensures { result ≡ list_all is_id_byte text.now }
{
    text.iter().all(|byte| is_id_byte(*byte))
}

fn is_id(text: &[u8]) -> bool
    ensures { result ≡ is_id text.now }
{
    !text.is_empty() && text.len() <= 35 && has_id_bytes(text)
}

// The bytes of a text, and zeros after them.
fn filled<const N: usize>(text: &[u8]) -> [u8; N]
    requires { length text.now ≤ N }
    ensures { take (length text.now) result ≡ text.now }
{
    let mut bytes = [0; N];
    bytes[..text.len()].copy_from_slice(text);
    bytes
}

impl Name {
    /// The name that these bytes are. None exactly where they aren't 1 to 34 capital letters and digits.
    pub fn read(text: &[u8]) -> Option<Name>
        ensures { SomeIff result (IsTrue (is_name text.now)) text.now }
    {
        if is_name(text) {
            Some(Name {
                bytes: filled(text),
                length: text.len() as u8,
            })
        } else {
            None
        }
    }

    /// An equal name.
    pub fn copy(&self) -> Name
        ensures { result ≡ self.now }
    {
        Name {
            bytes: self.bytes,
            length: self.length,
        }
    }

    /// The bytes of the text.
    pub fn as_bytes(&self) -> &[u8]
        ensures value { result.now ≡ self.now }
        ensures grammar { IsTrue (is_name self.now) }
    {
        &self.bytes[..self.length as usize]
    }
}

impl MsgId {
    /// The identification that these bytes are. None exactly where they aren't 1 to 35 letters, digits and dashes.
    pub fn read(text: &[u8]) -> Option<MsgId>
        ensures { SomeIff result (IsTrue (is_id text.now)) text.now }
    {
        if is_id(text) {
            Some(MsgId {
                bytes: filled(text),
                length: text.len() as u8,
            })
        } else {
            None
        }
    }

    /// An equal identification.
    pub fn copy(&self) -> MsgId
        ensures { result ≡ self.now }
    {
        MsgId {
            bytes: self.bytes,
            length: self.length,
        }
    }

    /// The bytes of the text.
    pub fn as_bytes(&self) -> &[u8]
        ensures value { result.now ≡ self.now }
        ensures grammar { IsTrue (is_id self.now) }
    {
        &self.bytes[..self.length as usize]
    }
}
