//! What a party knows of its accounts and its messages.
use cash_amounts::Cents;

/// How far a party knows that its message has come.
#[derive(Clone, Copy, Debug, PartialEq, Eq)]
pub enum Word {
    /// Nothing was told of it.
    Nothing,
    /// It was accepted.
    Accepted,
    /// It repeats an earlier message.
    Repeated,
    /// It was rejected.
    Rejected,
    /// Its system was asked whether the guarantee fund pays.
    Asked,
    /// It ended unsettled.
    Failed,
    /// It was revoked.
    Revoked,
    /// It is settled.
    Settled,
}

/// Why a view refuses a status.
#[derive(Clone, Copy, Debug, PartialEq, Eq)]
pub enum ViewFault {
    /// It moves money on an account that isn't the party's.
    Account,
    /// It takes more than the account holds, which is this balance.
    Short { balance: Cents },
    /// It brings the account, which holds this balance, past what an account may hold.
    Past { balance: Cents },
}
