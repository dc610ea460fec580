//! The only calls that may tell that memory was wanting, and the evidence of it.
#![tactic(auto)]

mod command_line;
mod lists;
mod maps;
mod memory;
mod records;
mod tables;

pub use command_line::words;
pub use lists::{
    LARGEST, MOST, copied, extend_from_slice, filled, push, reserve, text_of, with_capacity,
};
pub use maps::{MOST_ENTRIES, insert, insert_last, map_with_capacity};
pub use memory::Memory;
pub use records::read_record;
pub use tables::table_of_words;
