//! What a line of the journal says.
use cash_amounts::Cents;

/// A move of money between two accounts, which go by their numbers, from 1 in the order of the day file.
#[derive(Clone, Copy, Debug)]
pub struct Move {
    /// The account that the money leaves.
    pub debit: u32,
    /// The account that it comes to.
    pub credit: u32,
    pub amount: Cents,
}

/// The sorts of lines.
#[derive(Clone, Copy, Debug, PartialEq, Eq)]
pub enum Kind {
    /// A message is taken. Its code says whether it is accepted.
    In,
    /// A payment, or one entry of a batch, is booked.
    Book,
    /// All entries of a batch are booked at once.
    All,
    /// The clock moves on.
    Time,
    /// A payment or a batch ends unsettled, because its time is over. Of procedure A the booked debits are given back; what
    /// was booked of other procedures stays.
    Expire,
    /// A batch's time is over, and its system is asked whether the guarantee fund pays.
    Ask,
    /// The guarantee fund pays what a batch lacks. A batch that is booked all at once is booked in this line.
    Cover,
    /// A batch ends unsettled, because the guarantee fund doesn't pay. Its booked debits are given back.
    Refuse,
    /// A sub-account hands its whole balance to its owner's first cash account, as the day closes.
    Sweep,
    /// The day is over. No line follows.
    End,
}

impl Kind {
    ghost use Rattle.std.specs.Prelude.{◌≡◌};
    ghost use Rattle.commit_journal.specs.Text.{kind_text};

    // The word for it in texts.
    pub(crate) fn text(self) -> &'static [u8]
        ensures { result.now ≡ kind_text self }
    {
        match self {
            Kind::In => b"IN",
            Kind::Book => b"BOOK",
            Kind::All => b"ALL",
            Kind::Time => b"TIME",
            Kind::Expire => b"EXPIRE",
            Kind::Ask => b"ASK",
            Kind::Cover => b"COVER",
            Kind::Refuse => b"REFUSE",
            Kind::Sweep => b"SWEEP",
            Kind::End => b"END",
        }
    }
}

/// The codes of lines: that all is well, why a message was rejected at its intake, or why it ended unsettled.
#[derive(Clone, Copy, Debug, PartialEq, Eq)]
pub enum Code {
    /// All is well. An In line with it accepts its message.
    Ok,
    /// Rejected: an earlier message has the same sender and identification.
    Du,
    /// Rejected: the sender isn't what such a message needs, a system or a bank.
    Us,
    /// Rejected: the system doesn't use the procedure.
    Pr,
    /// Rejected: the batch is empty, or has another number of entries than it states.
    Ct,
    /// Rejected: the amounts of the entries don't add up to what the batch states.
    Sm,
    /// Rejected: what goes into the technical account isn't what goes out of it.
    Nz,
    /// Rejected: the accounts of an entry don't fit the procedure.
    En,
    /// Rejected: the times of the batch have passed, are out of order, or are none that its procedure has.
    Ti,
    /// Rejected: a cycle of the system has to be open and none is, or the other way round.
    Cy,
    /// Rejected: a payment or a liquidity transfer doesn't go between these accounts, or isn't the sender's to order.
    Ac,
    /// Rejected: the sub-account gives nothing while a cycle of its system is open.
    Lk,
    /// Rejected: the debit account holds less than the amount.
    Nc,
    /// Rejected: there is no such accepted batch.
    Bt,
    /// Rejected: the batch isn't in the phase in which it may be objected to, or answered for.
    Ph,
    /// Rejected: the bank that objects has no account in the batch.
    Np,
    /// Ended: the settlement period was over.
    Pe,
    /// Ended: the cycle was over.
    Ce,
    /// Ended: the day was over.
    Ed,
    /// Ended: the system answered that the guarantee fund doesn't pay.
    Gn,
    /// Ended: the guarantee fund holds less than the batch lacks.
    Gs,
    /// Ended: the day was over before the system answered.
    Ge,
}

impl Code {
    ghost use Rattle.std.specs.Prelude.{◌≡◌};
    ghost use Rattle.commit_journal.specs.Text.{code_text};

    /// The two capital letters for it in texts.
    pub fn text(self) -> &'static [u8]
        ensures { result.now ≡ code_text self }
    {
        match self {
            Code::Ok => b"OK",
            Code::Du => b"DU",
            Code::Us => b"US",
            Code::Pr => b"PR",
            Code::Ct => b"CT",
            Code::Sm => b"SM",
            Code::Nz => b"NZ",
            Code::En => b"EN",
            Code::Ti => b"TI",
            Code::Cy => b"CY",
            Code::Ac => b"AC",
            Code::Lk => b"LK",
            Code::Nc => b"NC",
            Code::Bt => b"BT",
            Code::Ph => b"PH",
            Code::Np => b"NP",
            Code::Pe => b"PE",
            Code::Ce => b"CE",
            Code::Ed => b"ED",
            Code::Gn => b"GN",
            Code::Gs => b"GS",
            Code::Ge => b"GE",
        }
    }
}

/// A line without its moves.
#[derive(Clone, Copy, Debug)]
pub struct Head {
    pub kind: Kind,
    /// The number of the message that the line is about, from 1 in the order of the day file. 0 where it is about none:
    /// in Time, Sweep and End.
    pub msg: u32,
    /// In Book the entry's number, from 1, or 0 for a payment. In Time the new time, in seconds from the start of the
    /// day. In Sweep the number of the sub-account. Else 0.
    pub entry: u32,
    pub code: Code,
}

/// What a line is made for. Messages, entries and accounts go by their numbers, from 1.
#[derive(Clone, Copy, Debug)]
pub enum Want {
    /// To take the message.
    In { msg: u32 },
    /// To book an entry of the batch, or the payment, with 0 as entry.
    Book { msg: u32, entry: u32 },
    /// To book all entries of the batch at once.
    All { msg: u32 },
    /// To move the clock on.
    Time,
    /// To end the payment or the batch, because its time is over.
    Expire { msg: u32 },
    /// To ask the batch's system whether the guarantee fund pays.
    Ask { msg: u32 },
    /// To let the guarantee fund pay what the batch lacks.
    Cover { msg: u32 },
    /// To end the batch, because the guarantee fund doesn't pay.
    Refuse { msg: u32 },
    /// To hand back what the sub-account holds.
    Sweep { account: u32 },
    /// To end the day.
    End,
}
