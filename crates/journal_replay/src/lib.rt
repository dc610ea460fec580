//! The replay of a journal: whether a text is that of a complete legal journal of the day.
#![tactic(auto)]

mod judging;
mod same;

pub use judging::{
    Verdict, follow_line, highest_message, one_verdict_each, replay, whole_journals_are_legal,
};
