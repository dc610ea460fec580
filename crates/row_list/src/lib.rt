//! Rows of items that stand one after another in one list.
#![tactic(auto)]

mod rows;

pub use rows::RowList;
