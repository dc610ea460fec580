//! The texts of lines and of a journal.
ghost use Rattle.std.specs.Prelude.{◌≡◌, ℕ, List, length};
ghost use Rattle.std.specs.List.{flat_map};
ghost use Rattle.outside_io.specs.Calls.{Puts};
ghost use Rattle.commit_journal.specs.Text.{head_text, move_text, line_text, journal_text};

use crate::journal::Journal;
use crate::line::{Head, Move};
use cash_amounts::{LinePlace, put_cents};
use itoa::Buffer;
use outside_io::{Sink, WriteFault, put_fields};

fn put_head<S: Sink>(place: u32, head: Head, count: usize, sink: &mut S) -> Result<(), WriteFault>
    ensures { Puts (S.state sink.old) (S.state sink.new) (head_text place head count) result }
{
    let mut place_digits = Buffer::new();
    let mut msg_digits = Buffer::new();
    let mut entry_digits = Buffer::new();
    let mut count_digits = Buffer::new();
    let fields: [&[u8]; 7] = [
        b"J",
        place_digits.format(place).as_bytes(),
        head.kind.text(),
        msg_digits.format(head.msg).as_bytes(),
        entry_digits.format(head.entry).as_bytes(),
        head.code.text(),
        count_digits.format(count).as_bytes(),
    ];
    put_fields(sink, &fields)
}

fn put_move<S: Sink>(one: Move, sink: &mut S) -> Result<(), WriteFault>
    ensures { Puts (S.state sink.old) (S.state sink.new) (move_text one) result }
{
    let mut debit_digits = Buffer::new();
    let mut credit_digits = Buffer::new();
    let amount = put_cents(one.amount);
    let fields: [&[u8]; 4] = [
        b"M",
        debit_digits.format(one.debit).as_bytes(),
        credit_digits.format(one.credit).as_bytes(),
        amount.as_bytes(),
    ];
    put_fields(sink, &fields)
}

fn put_moves<S: Sink>(moves: &[Move], sink: &mut S) -> Result<(), WriteFault>
    ensures { Puts (S.state sink.old) (S.state sink.new) (flat_map move_text moves.now) result }
{
    for one in moves {
        put_move(*one, sink)?;
    }
    Ok(())
}

/// Writes the text of the line at a place, counted from 1: a line of text for its head, and one for each of its moves, in
/// order. At an error a front of the text was written, and the sink's count of faults has risen.
pub fn put_line<S: Sink>(
    place: LinePlace,
    head: Head,
    moves: &[Move],
    sink: &mut S,
) -> Result<(), WriteFault>
    ensures { Puts (S.state sink.old) (S.state sink.new)
        (line_text place (record { head = head; moves = moves.now })) result }
{
    put_head(place, head, moves.len(), sink)?;
    put_moves(moves, sink)
}

/// Writes the texts of all lines, in the order of pushing. At an error a front of the text was written, and the sink's
/// count of faults has risen.
pub fn put_journal<S: Sink>(journal: &Journal, sink: &mut S) -> Result<(), WriteFault>
    ensures { Puts (S.state sink.old) (S.state sink.new) (journal_text journal.now.history) result }
{
    for before in 0..journal.len() {
        let (head, moves) = journal.line(before + 1);
        put_line(before + 1, head, moves, sink)?;
    }
    Ok(())
}
