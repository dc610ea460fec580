//! The settlement of a chain of business days, one after the other, with a statement of each account for each year.
#![tactic(auto)]

mod days;
mod joining;
mod ledger;
mod saying;
mod settling;
mod statements;
mod sums;
mod text;
mod top;

pub use top::chain;
