//! Which items of a day have a line, shown by few of them, so that a scan visits no others.
#![tactic(auto)]

mod found;
mod laws;
mod normals;
mod placing;
mod ready;
mod touching;

pub use laws::{renewed_shows, shown_is_next};
pub use ready::ReadyItems;
