//! Messages in the order of their In lines. Where many items become pending at one line, they are entered in this order first, so that
//! each row stands behind the one before it and its place is found at once. No answer rests on it: whoever goes along it looks again
//! what there is to do, and afterwards does what was left out.
use crate::parts::or_zero;
use cash_amounts::{Memory, MessageNumber};
use day_facts::DayFacts;
use refused_memory::with_capacity;
use std::alloc::Global;

// The message, after all whose In lines are before its own, as one number.
fn key(facts: &DayFacts, n: u32) -> u64 {
    u64::from(or_zero(facts.taken(n))) * 4_294_967_296 + u64::from(n)
}

fn message_of(key: u64) -> u32 {
    (key % 4_294_967_296) as u32
}

// A list that is used again and again, as far as there is room in it.
#[derive(Drop)]
pub struct IntakeOrder {
    keys: Vec<u64>,
}

impl IntakeOrder {
    // Room for so many messages.
    pub fn with_room(alloc: Global, most: u32) -> Result<IntakeOrder, Memory> {
        let keys = with_capacity(alloc, most as usize)?;
        Ok(IntakeOrder { keys })
    }

    pub fn clear(&mut self) {
        self.keys.clear();
    }

    // Puts a message into the list, where there is room for it.
    pub fn put(&mut self, facts: &DayFacts, n: MessageNumber) {
        if self.keys.len() < self.keys.capacity() {
            self.keys.push_reserved(key(facts, n));
        }
    }

    pub fn sort(&mut self) {
        self.keys.sort_unstable();
    }

    pub fn len(&self) -> usize {
        self.keys.len()
    }

    // The message at a place of the list; 0 after all.
    pub fn message(&self, i: usize) -> MessageNumber {
        match self.keys.get(i) {
            Some(key) => message_of(*key),
            None => 0,
        }
    }
}
