//! The pending items of a day, by account: which one keeps an item back, without a walk.
#![tactic(auto)]

mod cycles;
mod end_list;
mod ends;
mod intake_order;
mod items;
mod numbers;
mod parts;
mod rows;
mod slot;
mod standing;

pub use items::PendingItems;
