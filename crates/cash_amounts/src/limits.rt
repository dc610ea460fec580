//! The limits of a day.

/// How many systems a setup may have.
pub const MAX_SYSTEMS: usize = 256;

/// How many accounts a setup may have.
pub const MAX_ACCOUNTS: usize = 4096;

/// How many messages a day may have: in a day of version 3, and so in any.
pub const MAX_MESSAGES: usize = 1_000_000;

/// How many messages a day of version 1 or 2 may have.
pub const MAX_MESSAGES_BEFORE_THIRD: usize = 100_000;

/// How many entries a batch may have: in a day of version 2 or 3, and so in any.
pub const MAX_ENTRIES: usize = 50_000;

/// How many entries a batch of a day of version 1 may have.
pub const MAX_ENTRIES_OF_FIRST: usize = 10_000;

/// How many entries the batches of a day may have together: in a day of version 3, and so in any.
pub const MAX_ENTRIES_OF_DAY: usize = 2_000_000;

/// How many entries the batches of a day of version 1 or 2 may have together.
pub const MAX_ENTRIES_OF_DAY_BEFORE_THIRD: usize = 1_000_000;
