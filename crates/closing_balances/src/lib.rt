//! What is told at the end of a day, after its lines: what each account holds, and how many lines there are.
#![tactic(auto)]

mod closing;

pub use closing::put_closing;
