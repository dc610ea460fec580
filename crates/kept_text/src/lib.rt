//! What the bytes of the file of a live day stand for: the text that is kept in it, frame by frame.
#![tactic(auto)]

mod laws;

pub use laws::{
    closed_gates_end_texts, foreign_files_have_no_text, one_text_each, pieces_count_whole,
};
