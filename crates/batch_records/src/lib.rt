//! A day file: its records, and what is wrong with them.
#![tactic(auto)]

mod count_text;
mod day;
mod front;
mod held;
mod kinds;
mod laws;
mod lists;
mod part;
mod put;
mod put_batches;
mod reading;
mod register;
mod setup;
mod setup_lists;
mod so_far;
mod stated;
mod tally;
mod versions;
mod words;

pub use day::{
    Body, Day, DayCode, DayFault, DayRoom, Entry, Message, MessageRecord, RecordBody, Reserve,
};
pub use laws::{
    amounts_are_of_the_grammar, counts_are_decimal_numbers, cut_is_judged_alike,
    days_end_with_the_first_end, days_migrate, numbers_tell_what_records_come_to,
    read_days_meet_the_rules, repeats_have_an_earlier, sound_days_meet_the_rules,
    written_days_are_read_back,
};
pub use lists::{Accounts, Entries, Messages, Reserves, Stops, Systems};
pub use part::is_blank;
pub use put::put_day;
pub use reading::read_day;
pub use so_far::SoFar;
pub use tally::{Piece, Tally};
pub use versions::{migrated_version, most_entries_of_day, most_messages};
