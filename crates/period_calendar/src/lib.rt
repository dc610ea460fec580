//! The dates on which the system settles, the days on which TARGET is closed, and the times of a day.
#![tactic(auto)]

mod civil;
mod closing;
mod computus;
mod date;
mod digits;
mod laws;
mod time;

pub use closing::is_closing_day;
pub use computus::easter;
pub use date::{BusinessDate, DateFault};
pub use laws::one_text_each;
pub use time::{MIDNIGHT, put_time, read_time};
