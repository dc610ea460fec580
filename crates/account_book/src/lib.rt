//! The book of accounts and systems of a day, and the till that holds their balances.
#![tactic(auto)]

mod book;
mod copies;
mod directory;
mod finding;
mod room;
mod setup_hasher;
mod till;

pub use book::Book;
pub use room::BookRoom;
pub use till::{Holdings, OneTill, Till, TillRoom};
