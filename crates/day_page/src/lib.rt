//! A day to look at: its figures over a journal as one page of HTML.
#![tactic(auto)]

mod balances;
mod bars;
mod classes;
mod counting;
mod courses;
mod drawing;
mod extents;
mod laws;
mod ledger;
mod markup;
mod members;
mod movers;
mod page;
mod parties;
mod past;
mod peaks;
mod sheet;
mod styles;
mod waiting;
mod waits;
mod watching;
mod wording;
mod words;

pub use courses::Balances;
pub use laws::{
    highest_is_a_balance, lowest_is_a_balance, names_are_plain, peak_is_a_sum, series_end,
};
pub use page::put_page;
pub use sheet::{Watched, shown_balances, watch_all};
pub use words::{Request, request_of};
