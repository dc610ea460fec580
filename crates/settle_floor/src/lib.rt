//! The floor of a day: its journal, the machine that makes the lines, and the written order.
#![tactic(auto)]

mod carry;
mod codes;
mod desk;
mod floor;
mod indexed;
mod judging;
mod next_line;
mod payments;
mod ready;
mod run;
pub mod sizes;
mod sweeps;
mod taking;
mod times;

pub use carry::carry_out;
pub use floor::Floor;
