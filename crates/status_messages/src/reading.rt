//! Reading the texts of status messages.
ghost use Rattle.std.specs.Prelude.{◌≡◌, option_map, bytes_eq};
ghost use Rattle.outside_io.specs.TextLine.{semicolon};
ghost use Rattle.commit_journal.specs.FieldGrammar.{read_field};
ghost use Rattle.status_messages.specs.StatusTexts.{side_text, turn_text};
ghost use Rattle.status_messages.specs.StatusGrammar.{by_word, most_told, read_about, read_front, read_id, read_moved, read_name, read_side, read_status, read_taken, read_turn};
ghost use Rattle.status_messages.specs.StatusLaws.{FitsStatus, IsCounted, OnlyStatusesAreRead, StatusesAreRead};

use crate::status::{Status, TurnCode};
use crate::text::side_text;
use cash_amounts::{MAX_MESSAGES, MessageNumber, MsgId, Name};
use commit_journal::fields::{after_word, amount, code, cut, number_field};

const TURNS: [TurnCode; 8] = [
    TurnCode::Acpt,
    TurnCode::Rjct,
    TurnCode::Dupl,
    TurnCode::Info,
    TurnCode::Setl,
    TurnCode::Askg,
    TurnCode::Fail,
    TurnCode::Rvkd,
];

const SIDES: [bool; 2] = [true, false];

fn is_turn(turn: TurnCode, text: &[u8]) -> bool
    ensures { result ≡ bytes_eq (turn_text turn) text.now }
{
    turn.text() == text
}

// The turn whose word a text is.
#[tactic(auto, unfolding(crate::specs::StatusGrammar::read_turn))]
fn turn(text: &[u8]) -> Option<TurnCode>
    ensures { result ≡ read_turn text.now }
{
    TURNS.iter().copied().find(|turn| is_turn(*turn, text))
}

fn is_side(debit: bool, text: &[u8]) -> bool
    ensures { result ≡ bytes_eq (side_text debit) text.now }
{
    side_text(debit) == text
}

// The side whose word a text is: whether the money left the account.
#[tactic(auto, unfolding(crate::specs::StatusGrammar::read_side))]
fn side(text: &[u8]) -> Option<bool>
    ensures { result ≡ read_side text.now }
{
    SIDES.iter().copied().find(|debit| is_side(*debit, text))
}

fn name_field(input: &[u8]) -> Option<(Name, &[u8])>
    ensures { option_map (λ r. (r.0, r.1.now)) result ≡ read_field semicolon read_name input.now }
{
    let (field, rest) = cut(input, b';')?;
    let name = Name::read(field)?;
    Some((name, rest))
}

fn id_field(input: &[u8]) -> Option<(MsgId, &[u8])>
    ensures { option_map (λ r. (r.0, r.1.now)) result ≡ read_field semicolon read_id input.now }
{
    let (field, rest) = cut(input, b';')?;
    let id = MsgId::read(field)?;
    Some((id, rest))
}

// The place of a status message, and who is told.
#[tactic(auto, unfolding(crate::specs::StatusGrammar::read_front))]
fn front(input: &[u8]) -> Option<((u32, Name), &[u8])>
    ensures { option_map (λ r. (r.0, r.1.now)) result ≡ read_front input.now }
{
    let rest = after_word(b"S", input)?;
    let (place, rest) = number_field(rest, b';', 1, u32::MAX)?;
    let (to, rest) = name_field(rest)?;
    Some(((place, to), rest))
}

// The number of the message that took a turn, at most this, its sender and its identification.
#[tactic(auto, unfolding(crate::specs::StatusGrammar::read_about))]
fn about(most: u32, input: &[u8]) -> Option<((u32, Name, MsgId), &[u8])>
    ensures { option_map (λ r. (r.0, r.1.now)) result ≡ read_about most input.now }
{
    let (msg, rest) = number_field(input, b';', 1, most)?;
    let (sender, rest) = name_field(rest)?;
    let (id, rest) = id_field(rest)?;
    Some(((msg, sender, id), rest))
}

// What stands after the word of a turn.
#[tactic(auto, unfolding(crate::specs::StatusGrammar::read_taken))]
fn taken(most: u32, place: u32, to: Name, turn: TurnCode, input: &[u8]) -> Option<Status>
    ensures { result ≡ read_taken most place to turn input.now }
{
    let ((msg, sender, id), rest) = about(most, input)?;
    let (entry, rest) = number_field(rest, b';', 0, u32::MAX)?;
    let reason = code(rest)?;
    Some(Status::Turn {
        place,
        to,
        code: turn,
        msg,
        sender,
        id,
        entry,
        reason,
    })
}

// What stands after the word for the side of a move.
#[tactic(auto, unfolding(crate::specs::StatusGrammar::read_moved))]
fn moved(place: u32, to: Name, debit: bool, input: &[u8]) -> Option<Status>
    ensures { result ≡ read_moved place to debit input.now }
{
    let (account, rest) = name_field(input)?;
    let amount = amount(rest)?;
    Some(Status::Moved {
        place,
        to,
        debit,
        account,
        amount,
    })
}

// What stands after a word.
fn behind(most: u32, place: u32, to: Name, word: &[u8], input: &[u8]) -> Option<Status>
    ensures { result ≡ by_word most place to word.now input.now (read_turn word.now) }
{
    match turn(word) {
        Some(turn) => taken(most, place, to, turn, input),
        None => {
            let debit = side(word)?;
            moved(place, to, debit, input)
        }
    }
}

/// Of which message a status of a day of this version can be at most: in version 3 the last that such a day can have, 1,000,000,
/// and in the versions before it any number.
pub fn most_told(version: u8) -> MessageNumber
    ensures { result ≡ most_told version }
{
    if version == 3 {
        MAX_MESSAGES as u32
    } else {
        u32::MAX
    }
}

/// The status message whose text a line is, without the line's end, where it is of no message above `most`. None exactly where
/// it is the text of none. Places are from 1 to `u32::MAX`, numbers of messages from 1 to `most`, entries from 0 to `u32::MAX`,
/// amounts from 1 to `MAX_CENTS` cents. Takes no memory.
#[tactic(auto, unfolding(crate::specs::StatusGrammar::read_status))]
pub fn read_status(most: MessageNumber, line: &[u8]) -> Option<Status>
    ensures { result ≡ read_status most line.now }
{
    let ((place, to), rest) = front(line)?;
    let (word, rest) = cut(rest, b';')?;
    behind(most, place, to, word, rest)
}

/// The text of each status message that fits is read as that one, and nothing else is read.
pub fn one_status_each()
    ensures read { StatusesAreRead }
    ensures nothing_else { OnlyStatusesAreRead }
{}

/// A status message fits where its place is above 0, and the amount too, or the number of the message that it is about, which is
/// at most `most`.
pub fn counted_status_fits(most: MessageNumber, status: Status)
    ensures { IsCounted most status → FitsStatus most status }
{}
