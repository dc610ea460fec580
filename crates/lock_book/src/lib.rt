//! The balances of a day in eight groups and its floor, each behind a lock of its own, with the passes that tie them to one
//! journal.
#![tactic(auto)]

mod amounts;
mod balances;
mod counted;
mod group;
mod hall;
mod held;
mod held_floor;
mod kit;
mod laws;
mod name;
mod needs;
mod round_till;

pub use balances::Balances;
pub use counted::{CountedFloor, Stepped};
pub use group::Group;
pub use hall::Hall;
pub use held_floor::HeldFloor;
pub use kit::HallKit;
pub use laws::{steps_tell_of_taken, taken_stays};
pub use name::HallName;
pub use needs::Needs;
