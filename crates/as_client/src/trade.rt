//! Trades between parties, and what is left of them.
use cash_amounts::{Cents, Name};

/// One payment that two parties agreed on.
#[derive(Drop)]
pub struct Trade {
    /// The account that pays.
    pub payer: Name,
    /// The account that is paid.
    pub payee: Name,
    pub amount: Cents,
}

/// What an account has received less what it has paid, in cents: below zero where it owes, above where it is owed.
#[derive(Drop)]
pub struct Position {
    pub account: Name,
    pub sum: i64,
}
