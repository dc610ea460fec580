//! What was asked of something and written to it, one after the other.
use std::snapshot::Snapshot;

/// What was asked of a port that keeps and written to it, in its order, as clauses see it. At run time it has nothing but which came last.
#[derive(Drop)]
pub enum Story<K> {
    /// Nothing yet.
    Begins {
        /// How it was at first.
        first: Snapshot<K>,
    },
    /// It was asked for bytes and answered.
    Asked {
        /// What came before.
        before: Snapshot<Story<K>>,
        /// How it was when it was asked.
        then: Snapshot<K>,
    },
    /// Bytes were written to it.
    Wrote {
        /// What came before.
        before: Snapshot<Story<K>>,
        /// How it was when they had been written.
        then: Snapshot<K>,
    },
}
