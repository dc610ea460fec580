//! Names for numbers, so that a signature says what a number numbers.

/// An account's number, from 1 in file order; 0 is none.
pub type AccountNumber = u32;

/// The number of a batch's entry, from 1; 0 is the message as a whole.
pub type EntryNumber = u32;

/// The place of a line in the journal, from 1.
pub type LinePlace = u32;

/// A message's number, from 1 in file order; 0 is none.
pub type MessageNumber = u32;

/// Seconds after midnight, 0 to 86400.
pub type Seconds = u32;
