//! Items, phases and reasons.
use cash_amounts::Cents;
use commit_journal::Want;

/// A message, with entry 0, or one of its entries. Messages are counted from 1 in file order, and entries from 1 in each.
#[derive(Clone, Copy, Debug, PartialEq, Eq)]
pub struct Item {
    pub msg: u32,
    pub entry: u32,
}

/// How far a message has come.
#[derive(Clone, Copy, Debug, PartialEq, Eq)]
pub enum Phase {
    /// It isn't taken.
    Untaken,
    /// It was taken with another code than OK.
    Rejected,
    /// It expired, or the guarantee fund was refused to it.
    Closed,
    /// An objection revoked it whole, or objections revoked each of its entries.
    Revoked,
    /// Nothing of it waits: it is booked; of a batch of E each entry is booked or revoked; of a batch of D its entries were
    /// decided when it was taken; or it is an accepted transfer, objection, answer or cycle message.
    Settled,
    /// The guarantee fund has paid its unbooked debits, and its credits aren't all booked.
    Covered,
    /// Its system was asked for the guarantee fund and has answered.
    Answered,
    /// Its system was asked for the guarantee fund and hasn't answered.
    Asking,
    /// Its information period lasts.
    Information,
    /// Its earliest time isn't reached.
    Waiting,
    /// It may be booked.
    Open,
    /// Its time is over.
    Overdue,
}

/// Why the machine makes no line for a want: the first condition that isn't met, with what shows it. Places, messages,
/// entries and accounts are counted from 1, and the clock in seconds after midnight.
#[derive(Clone, Copy, Debug)]
pub enum Why {
    /// The day has ended: its End line stands at this place.
    Over { place: u32 },
    /// The day has no message, entry or account of this number, or none of the sort that the want speaks of.
    NoSuch,
    /// The message is taken already, in the line at this place.
    Taken { place: u32 },
    /// The message is of this round, which isn't reached.
    Round { round: u32 },
    /// The first message of the same sender that stands before it and isn't taken.
    Earlier { msg: u32 },
    /// The message isn't taken.
    Untaken,
    /// The message is in another phase than the want needs.
    Phase { phase: Phase, clock: u32 },
    /// The entry, or the payment, was booked in the line at this place.
    Booked { place: u32 },
    /// The entry was revoked first by the objection that was taken in the line at this place.
    Revoked { place: u32 },
    /// The guarantee fund paid the debit entry in the Cover line at this place.
    Covered { place: u32 },
    /// A credit of procedure A waits for the debits of its batch, of which this is the first that isn't booked.
    Debits { entry: u32 },
    /// The first item that stands before it on its debit account; for All on the first debtor account that has one.
    Blocked { account: u32, msg: u32, entry: u32 },
    /// What the account holds doesn't do: the debit account, which for a payment holds less than its amount and what it must
    /// leave there; for All the first debtor account that holds less than its debits; for Cover the guarantee fund's.
    Short { account: u32, balance: Cents },
    /// The system has this fund account and can be asked for it.
    Fund { account: u32 },
    /// The system has no fund account.
    NoFund,
    /// The system's answer is no.
    Answer,
    /// The system's answer is yes, and the fund holds what is needed.
    Enough { balance: Cents, need: Cents },
    /// The sub-account holds nothing.
    Empty,
    /// It is too late, for Ask and Time, or not yet midnight, for Sweep and End.
    Clock { clock: u32 },
    /// The first message of the rounds reached that isn't taken.
    Left { msg: u32 },
    /// The first want that is ready: by message and entry, and then the sub-accounts by number.
    Ready { want: Want },
}
