//! Amounts of money, names, the words of a command line and the records of a setup.
#![tactic(auto)]

mod amount_text;
mod cents;
mod limits;
mod name;
mod number_kinds;
mod records;
mod words;

pub use amount_text::{AmountFault, one_text_each, put_cents, read_cents};
pub use cents::{Cents, MAX_CENTS, sum};
pub use limits::{
    MAX_ACCOUNTS, MAX_ENTRIES, MAX_ENTRIES_OF_DAY, MAX_ENTRIES_OF_DAY_BEFORE_THIRD,
    MAX_ENTRIES_OF_FIRST, MAX_MESSAGES, MAX_MESSAGES_BEFORE_THIRD, MAX_SYSTEMS,
};
pub use name::{MsgId, Name};
pub use number_kinds::{AccountNumber, EntryNumber, LinePlace, MessageNumber, Seconds};
pub use records::{AccountKind, AccountRecord, Procedure, SystemRecord};
pub use refused_memory::Memory;
pub use words::Words;
