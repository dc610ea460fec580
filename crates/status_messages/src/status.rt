//! Status messages.
use cash_amounts::{Cents, MsgId, Name};
use commit_journal::Code;

/// The turns that a message can take.
#[derive(Clone, Copy, Debug, PartialEq, Eq)]
pub enum TurnCode {
    /// It was accepted.
    Acpt,
    /// It was rejected; or one of its entries was, where an entry is named.
    Rjct,
    /// It repeats an earlier message.
    Dupl,
    /// A batch was accepted to which the bank that is told may object.
    Info,
    /// It is settled.
    Setl,
    /// Its system is asked whether the guarantee fund pays.
    Askg,
    /// It ended unsettled.
    Fail,
    /// It was revoked; or one of its entries was, where an entry is named.
    Rvkd,
}

impl TurnCode {
    ghost use Rattle.std.specs.Prelude.{◌≡◌};
    ghost use Rattle.status_messages.specs.StatusTexts.{turn_text};

    // The word for it in texts.
    pub(crate) fn text<'a>(self) -> &'a [u8]
        ensures { result.now ≡ turn_text self }
    {
        match self {
            TurnCode::Acpt => b"ACPT",
            TurnCode::Rjct => b"RJCT",
            TurnCode::Dupl => b"DUPL",
            TurnCode::Info => b"INFO",
            TurnCode::Setl => b"SETL",
            TurnCode::Askg => b"ASKG",
            TurnCode::Fail => b"FAIL",
            TurnCode::Rvkd => b"RVKD",
        }
    }
}

/// A status message: what a party is told of a line of the journal.
#[derive(Drop, Debug, PartialEq, Eq)]
pub enum Status {
    /// That a message took a turn.
    Turn {
        /// The place of the line, from 1.
        place: u32,
        /// Who is told.
        to: Name,
        /// Which turn.
        code: TurnCode,
        /// The number of the message, from 1 in the order of the day file.
        msg: u32,
        /// The message's sender.
        sender: Name,
        /// The message's identification.
        id: MsgId,
        /// The number of the entry that took the turn, from 1; 0 where it was the message as a whole.
        entry: u32,
        /// Why.
        reason: Code,
    },
    /// That money was moved.
    Moved {
        /// The place of the line, from 1.
        place: u32,
        /// Who is told: the owner of the account.
        to: Name,
        /// Whether the money left the account. Else it came to it.
        debit: bool,
        /// The account's name.
        account: Name,
        /// How much, in cents.
        amount: Cents,
    },
}
