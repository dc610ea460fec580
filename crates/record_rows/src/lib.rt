//! The records of a text that comes byte by byte, read without memory.
#![tactic(auto)]

mod input;
mod laws;
mod line;
mod machine;
mod reader;
mod row;

pub use input::InputReader;
pub use laws::{
    a_record_ends_with_its_line, end_lines_are_found, records_come_whole, rows_follow_the_text,
};
pub use line::Line;
pub use reader::RowReader;
pub use row::Row;
