//! Keys of six words, at which head a search for a key begins, and which of two ways it takes at a node.
ghost use Rattle.std.specs.Prelude.{◌≡◌, ◌<◌, ◌↔◌, IsTrue};
ghost use Rattle.std.specs.Cmp.Lexicographic.{slice_cmp};
ghost use Rattle.std.specs.Ordering.{nat_cmp};
ghost use Rattle.first_of_key.specs.Sides.{stirred, mixed, head, side, word_at};

use std::cmp::Ordering;

/// A key: six words. Keys are ordered by their first words that differ.
#[derive(Clone, Copy, Debug, PartialEq, Eq, PartialOrd, Ord)]
pub struct Key {
    pub words: [u64; 6],
}

impl Key {
    /// The order of two keys: by their first words that differ.
    pub fn compare(self, other: Key) -> Ordering
        ensures { result ≡ slice_cmp nat_cmp self.words other.words }
    {
        self.cmp(&other)
    }
}

// An odd number whose bits have no pattern.
const SPREAD: u64 = 0x9E37_79B9_7F4A_7C15;

#[tactic(auto, unfolding(crate::specs::Sides::stirred))]
fn stirred(mixed: u64, word: u64) -> u64
    ensures { result ≡ stirred mixed word }
{
    let spread = mixed.wrapping_add(word).wrapping_mul(SPREAD);
    spread.wrapping_add(spread >> 32)
}

// One word of all the words of a key.
#[tactic(auto, unfolding(crate::specs::Sides::mixed))]
pub(crate) fn mixed(key: Key) -> u64
    ensures { result ≡ mixed key }
{
    let a = stirred(0, key.words[0]);
    let b = stirred(a, key.words[1]);
    let c = stirred(b, key.words[2]);
    let d = stirred(c, key.words[3]);
    let e = stirred(d, key.words[4]);
    stirred(e, key.words[5])
}

// Of so many heads the one at which a search for a key begins.
#[tactic(auto, unfolding(crate::specs::Sides::head))]
pub(crate) fn head(key: Key, mix: u64, heads: usize) -> usize
    requires mix { mix ≡ mixed key }
    requires some { 0 < heads }
    ensures is { result ≡ head heads key }
    ensures within { result < heads }
{
    (mix % heads as u64) as usize
}

// The word whose bits tell the way at a depth.
#[tactic(auto, unfolding(crate::specs::Sides::word_at))]
fn word_at(key: Key, mix: u64, depth: u32) -> u64
    requires { mix ≡ mixed key }
    ensures { result ≡ word_at key depth }
{
    if depth < 64 {
        mix
    } else {
        key.words[(depth / 64 - 1) as usize % 6]
    }
}

// The way at a depth: one bit after the other, first those of the mixed word, the highest first, and then those of the key.
#[tactic(auto, unfolding(crate::specs::Sides::side))]
pub(crate) fn side(key: Key, mix: u64, depth: u32) -> bool
    requires { mix ≡ mixed key }
    ensures { result ≡ side key depth }
{
    word_at(key, mix, depth) >> (63 - depth % 64) & 1 == 1
}

pub(crate) fn is_same(a: Key, b: Key) -> bool
    ensures { IsTrue result ↔ (a ≡ b) }
{
    a == b
}
