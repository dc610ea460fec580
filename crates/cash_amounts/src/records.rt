//! The records of a setup.
use crate::{Cents, Name};

/// The kinds of accounts.
#[derive(Clone, Copy, Debug, PartialEq, Eq)]
pub enum AccountKind {
    /// A dedicated cash account of a bank.
    Dca,
    /// A sub-account of a bank, dedicated to one system.
    Sub,
    /// A technical account of a system and a procedure.
    Tech,
    /// A guarantee fund account of a system.
    Fund,
}

/// The procedures by which an ancillary system settles.
#[derive(Clone, Copy, Debug, PartialEq, Eq)]
pub enum Procedure {
    /// Debits before credits, over a technical account.
    A,
    /// All or nothing, over a technical account.
    B,
    /// On dedicated sub-accounts, in cycles.
    C,
    /// From a prefunded technical account.
    D,
    /// From bank to bank, entry by entry.
    E,
}

/// An account of a setup.
#[derive(Drop, Debug, PartialEq, Eq)]
pub struct AccountRecord {
    pub name: Name,
    pub kind: AccountKind,
    /// A bank, of a dedicated cash account or a sub-account; else a system.
    pub owner: Name,
    /// The system to which a sub-account is dedicated; none for other kinds.
    pub system: Option<Name>,
    /// The procedure of a technical account; none for other kinds.
    pub procedure: Option<Procedure>,
    /// The balance with which the day begins.
    pub opening: Cents,
}

/// An ancillary system of a setup.
#[derive(Drop, Debug, PartialEq, Eq)]
pub struct SystemRecord {
    pub name: Name,
    /// Which of the procedures A to E the system lists, in that order.
    pub procedures: [bool; 5],
}
