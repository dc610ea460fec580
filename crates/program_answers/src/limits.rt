//! How many bytes an input may have.

/// The longest day with what follows it, in bytes: 128 MiB.
pub const MAX_INPUT: usize = 134_217_728;

/// The longest input in which days, or a day and what was made of it, stand one after another, in bytes: 512 MiB.
pub const MAX_LONG_INPUT: usize = 536_870_912;
