//! A day with what is found out about it once, and what several procedures ask of it.
#![tactic(auto)]

mod arriving;
pub mod batch_names;
mod batch_tables;
pub mod batches;
mod book_names;
mod debtor_sums;
mod desk;
mod found;
mod item_moves;
mod kept;
pub mod lines;
pub mod parties;
pub mod parts;
pub mod phases;
pub mod reasons;
mod repeats;
pub mod rows;
mod setting;
pub mod sorts;
mod system_accounts;
pub mod taking;

pub use arriving::{SettingRoom, take_last};
pub use batch_tables::BatchTables;
pub use debtor_sums::DebtorSums;
pub use desk::Desk;
pub use found::Found;
pub use item_moves::ItemMoves;
pub use kept::{Kept, KeptRoom};
pub use machine::{Item, Phase, Why};
pub use parties::Parties;
pub use repeats::Repeats;
pub use setting::Setting;
pub use system_accounts::{SenderAccounts, SystemAccounts};
