//! The two sides of a bank's accounts.

/// A side of a bank's accounts: what leaves them, or what comes to them.
#[derive(Clone, Copy, Debug, PartialEq, Eq)]
pub enum Side {
    /// What is debited.
    Out,
    /// What is credited.
    In,
}
