//! Sets of numbers in tiers. The lowest tier has a bit for each number, and each tier above has a bit for each word of the
//! tier below, which says that the word isn't 0. So each call looks at a word or two of each tier.
ghost use Rattle.std.specs.Prelude.{◌≡◌, ◌≢◌, ℕ, ◌+◌, ◌*◌, ◌^◌, ◌<◌, ◌≤◌, Bool, true, false, IfOk, vec_len};
ghost use Rattle.number_set.specs.Bits.{has_bit};
ghost use Rattle.number_set.specs.Next.{IsNext};
ghost use Rattle.number_set.specs.Tiers.{has_number, is_occupied};

use crate::word;
use refused_memory::{Memory, filled};
use std::alloc::Global;

/// A set of the numbers for which there is room.
pub(crate) trait Members: Drop {
    /// Whether a number is in the set.
    ghost has: { Self → ℕ → Bool };

    /// The numbers below it may be in the set.
    ghost room: { Self → ℕ };

    /// For how many numbers there can be room.
    ghost most: { ℕ };

    /// The empty set.
    fn with_room(alloc: Global, count: usize) -> Result<Self, Memory>
        requires most { count ≤ most }
        requires small { count ≤ 2 ^ 32 }
        ensures room { IfOk result (λ set. count ≤ room set) }
        ensures empty { IfOk result (λ set. (k : ℕ) → has set k ≡ false) };

    /// Whether the number is in the set.
    fn contains(&self, n: usize) -> bool
        requires { n < room self.now }
        ensures { result ≡ has self.now n };

    /// Puts the number into the set.
    fn insert(&mut self, n: usize)
        requires { n < room self.old }
        ensures room { room self.new ≡ room self.old }
        ensures same { has self.new n ≡ true }
        ensures others { (k : ℕ) → k ≢ n → has self.new k ≡ has self.old k };

    /// Takes the number out of the set.
    fn remove(&mut self, n: usize)
        requires { n < room self.old }
        ensures room { room self.new ≡ room self.old }
        ensures same { has self.new n ≡ false }
        ensures others { (k : ℕ) → k ≢ n → has self.new k ≡ has self.old k };

    /// The least number of the set from the given one on.
    fn next(&self, from: usize) -> Option<usize>
        ensures { IsNext (has self.now) from result };
}

/// The highest tier: one word.
#[derive(Drop)]
pub(crate) struct Top {
    word: u64,
}

impl Members for Top {
    ghost has = { λ top. has_bit top.word };

    ghost room = { λ _. 64 };

    ghost most = { 64 };

    fn with_room(_alloc: Global, _count: usize) -> Result<Self, Memory> {
        Ok(Top { word: 0 })
    }

    fn contains(&self, n: usize) -> bool {
        word::has(self.word, n as u32)
    }

    fn insert(&mut self, n: usize) {
        self.word = word::with(self.word, n as u32);
    }

    fn remove(&mut self, n: usize) {
        self.word = word::without(self.word, n as u32);
    }

    fn next(&self, from: usize) -> Option<usize> {
        let word = self.word;
        if from >= 64 {
            return None;
        }
        match word::next(word, from as u32) {
            Some(n) => Some(n as usize),
            None => None,
        }
    }
}

/// A tier with the tiers above it.
#[derive(Drop)]
pub(crate) struct Tier<S: Members> {
    words: Vec<u64>,
    above: S,
    ghost summed: { (w : ℕ) → S.has above w ≡ is_occupied words.items w },
    ghost covered: { vec_len words ≤ S.room above },
    ghost small: { vec_len words ≤ 2 ^ 32 },
}

impl<S: Members> Members for Tier<S> {
    ghost has = { λ tier. has_number tier.words.items };

    ghost room = { λ tier. 64 * vec_len tier.words };

    ghost most = { 64 * S.most };

    fn with_room(alloc: Global, count: usize) -> Result<Self, Memory> {
        let words = count.div_ceil(64);
        let above = S::with_room(alloc, words)?;
        let words = filled(alloc, 0, words)?;
        Ok(Tier { words, above })
    }

    fn contains(&self, n: usize) -> bool {
        word::has(self.words[n / 64], (n % 64) as u32)
    }

    fn insert(&mut self, n: usize) {
        let place = n / 64;
        let word = self.words[place];
        self.words[place] = word::with(word, (n % 64) as u32);
        if word == 0 {
            self.above.insert(place);
        }
    }

    fn remove(&mut self, n: usize) {
        let place = n / 64;
        let before = self.words[place];
        // What isn't there is in no tier above.
        if !word::has(before, (n % 64) as u32) {
            return;
        }
        let word = word::without(before, (n % 64) as u32);
        self.words[place] = word;
        if word == 0 {
            self.above.remove(place);
        }
    }

    fn next(&self, from: usize) -> Option<usize> {
        let place = from / 64;
        if place >= self.words.len() {
            return None;
        }
        if let Some(bit) = word::next(self.words[place], (from % 64) as u32) {
            return Some(64 * place + bit as usize);
        }
        match self.above.next(place + 1) {
            Some(place) => Some(64 * place + word::first(self.words[place]) as usize),
            None => None,
        }
    }
}
