//! The texts of status messages.
ghost use Rattle.std.specs.Prelude.{◌≡◌};
ghost use Rattle.outside_io.specs.Calls.{Puts};
ghost use Rattle.commit_journal.specs.Text.{code_text};
ghost use Rattle.status_messages.specs.StatusTexts.{moved_line, side_text, status_text, turn_line};

use crate::status::{Status, TurnCode};
use cash_amounts::{Cents, EntryNumber, LinePlace, MessageNumber, put_cents};
use commit_journal::Code;
use itoa::Buffer;
use outside_io::{Sink, WriteFault, put_fields};

// The word for the side of a move.
pub(crate) fn side_text<'a>(debit: bool) -> &'a [u8]
    ensures { result.now ≡ side_text debit }
{
    if debit { b"DBIT" } else { b"CRDT" }
}

// The letters of a code.
fn code_text<'a>(code: Code) -> &'a [u8]
    ensures { result.now ≡ code_text code }
{
    code.text()
}

#[expect(clippy::too_many_arguments)]
pub fn put_turn<'a, S: Sink>(
    place: LinePlace,
    to: &'a [u8],
    code: TurnCode,
    msg: MessageNumber,
    sender: &'a [u8],
    id: &'a [u8],
    entry: EntryNumber,
    reason: Code,
    sink: &mut S,
) -> Result<(), WriteFault>
    ensures { Puts (S.state sink.old) (S.state sink.new)
        (turn_line place to.now code msg sender.now id.now entry reason) result }
{
    let mut place_digits = Buffer::new();
    let mut msg_digits = Buffer::new();
    let mut entry_digits = Buffer::new();
    let fields: [&[u8]; 9] = [
        b"S",
        place_digits.format(place).as_bytes(),
        to,
        code.text(),
        msg_digits.format(msg).as_bytes(),
        sender,
        id,
        entry_digits.format(entry).as_bytes(),
        code_text(reason),
    ];
    put_fields(sink, &fields)
}

pub fn put_moved<S: Sink>(
    place: LinePlace,
    to: &[u8],
    debit: bool,
    account: &[u8],
    amount: Cents,
    sink: &mut S,
) -> Result<(), WriteFault>
    ensures { Puts (S.state sink.old) (S.state sink.new)
        (moved_line place to.now debit account.now amount) result }
{
    let mut place_digits = Buffer::new();
    let amount_text = put_cents(amount);
    let fields: [&[u8]; 6] = [
        b"S",
        place_digits.format(place).as_bytes(),
        to,
        side_text(debit),
        account,
        amount_text.as_bytes(),
    ];
    put_fields(sink, &fields)
}

/// Writes the text of a status message: one line. At an error a front of the line was written, and the sink's count of faults
/// has risen.
#[tactic(auto, unfolding(crate::specs::StatusTexts::status_text))]
pub fn put_status<S: Sink>(status: &Status, sink: &mut S) -> Result<(), WriteFault>
    ensures { Puts (S.state sink.old) (S.state sink.new) (status_text status.now) result }
{
    match status {
        Status::Turn {
            place,
            to,
            code,
            msg,
            sender,
            id,
            entry,
            reason,
        } => put_turn(
            *place,
            to.as_bytes(),
            *code,
            *msg,
            sender.as_bytes(),
            id.as_bytes(),
            *entry,
            *reason,
            sink,
        ),
        Status::Moved {
            place,
            to,
            debit,
            account,
            amount,
        } => put_moved(
            *place,
            to.as_bytes(),
            *debit,
            account.as_bytes(),
            *amount,
            sink,
        ),
    }
}
