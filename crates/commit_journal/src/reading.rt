//! Reading the texts of lines.
ghost use Rattle.std.specs.Prelude.{◌≡◌, ◌==◌, ◌&&◌, ℕ, ◌+◌, ◌<◌, ◌≤◌, ◌^◌, [], length, drop, decimal, Some, None, option_map, bytes_eq, nat_le, IfOk, IfErr, MatchOption};
ghost use Rattle.std.specs.List.{position};
ghost use Rattle.outside_io.specs.TextLine.{semicolon, line_feed};
ghost use Rattle.commit_journal.specs.Text.{kind_text, line_text};
ghost use Rattle.commit_journal.specs.FieldGrammar.{read_field};
ghost use Rattle.commit_journal.specs.LineGrammar.{read_kind, read_front, read_head, read_accounts, read_move, read_moves, read_line};
ghost use Rattle.commit_journal.specs.Kept.{IsOneMore};
ghost use Rattle.commit_journal.specs.LineLaws.{LinesAreRead, OnlyLinesAreRead, TextsTellLines};

use crate::fields::{after_word, amount, code_field, cut, number_field};
use crate::line::{Head, Kind, Move};
use crate::move_list::{MAX_MOVES, MoveList};
use cash_amounts::{LinePlace, MAX_ACCOUNTS, MessageNumber};
use period_calendar::MIDNIGHT;

/// A text isn't that of a line at its place.
#[derive(Clone, Copy, Debug, PartialEq, Eq)]
pub struct JournalFault {
    /// The place, from 1, at which a line was asked for.
    pub place: u32,
}

const KINDS: [Kind; 10] = [
    Kind::In,
    Kind::Book,
    Kind::All,
    Kind::Time,
    Kind::Expire,
    Kind::Ask,
    Kind::Cover,
    Kind::Refuse,
    Kind::Sweep,
    Kind::End,
];

const MAX_ACCOUNT: u32 = MAX_ACCOUNTS as u32;

fn is_kind(kind: Kind, text: &[u8]) -> bool
    ensures { result ≡ bytes_eq (kind_text kind) text.now }
{
    kind.text() == text
}

#[tactic(auto, unfolding(crate::specs::LineGrammar::read_kind))]
fn kind(text: &[u8]) -> Option<Kind>
    ensures { result ≡ read_kind text.now }
{
    KINDS.iter().copied().find(|kind| is_kind(*kind, text))
}

fn kind_field(input: &[u8]) -> Option<(Kind, &[u8])>
    ensures { option_map (λ r. (r.0, r.1.now)) result ≡ read_field semicolon read_kind input.now }
{
    let (field, rest) = cut(input, b';')?;
    let kind = kind(field)?;
    Some((kind, rest))
}

// A head up to its kind.
#[tactic(auto, unfolding(crate::specs::LineGrammar::read_front))]
fn front(input: &[u8], place: u32) -> Option<(Kind, &[u8])>
    ensures { option_map (λ r. (r.0, r.1.now)) result ≡ read_front place input.now }
{
    let rest = after_word(b"J", input)?;
    let (_, rest) = number_field(rest, b';', place, place)?;
    kind_field(rest)
}

// A head of a message no higher than this one, and the number of its moves.
#[tactic(auto, unfolding(crate::specs::LineGrammar::read_head))]
fn head(input: &[u8], place: u32, most: u32) -> Option<((Head, u32), &[u8])>
    ensures { option_map (λ r. (r.0, r.1.now)) result ≡ read_head most place input.now }
{
    let (kind, rest) = front(input, place)?;
    let (msg, rest) = number_field(rest, b';', 0, most)?;
    let (entry, rest) = number_field(rest, b';', 0, MIDNIGHT)?;
    let (code, rest) = code_field(rest)?;
    let (count, rest) = number_field(rest, b'\n', 0, MAX_MOVES)?;
    let head = Head {
        kind,
        msg,
        entry,
        code,
    };
    Some(((head, count), rest))
}

// The accounts of a move, and what stands after them.
#[tactic(auto, unfolding(crate::specs::LineGrammar::read_accounts))]
fn accounts(input: &[u8]) -> Option<((u32, u32), &[u8])>
    ensures { option_map (λ r. (r.0, r.1.now)) result ≡ read_accounts input.now }
{
    let rest = after_word(b"M", input)?;
    let (debit, rest) = number_field(rest, b';', 1, MAX_ACCOUNT)?;
    let (credit, rest) = number_field(rest, b';', 1, MAX_ACCOUNT)?;
    Some(((debit, credit), rest))
}

// A move, which is put into the list, and what stands after it.
#[tactic(auto, unfolding(crate::specs::LineGrammar::read_move))]
fn take_move<'a>(input: &'a [u8], moves: &mut MoveList) -> Option<&'a [u8]>
    requires { 0 < moves.old.room }
    ensures { MatchOption result ((read_move input.now ≡ None) × (moves.new ≡ moves.old))
        (λ rest. IsOneMore moves.old moves.new (read_move input.now) rest.now) }
{
    let ((debit, credit), rest) = accounts(input)?;
    let (field, rest) = cut(rest, b'\n')?;
    let amount = amount(field)?;
    moves.push(Move {
        debit,
        credit,
        amount,
    });
    Some(rest)
}

// So many moves, which are put into the list, and what stands after them.
fn take_moves<'a>(input: &'a [u8], count: u32, moves: &mut MoveList) -> Option<&'a [u8]>
    requires empty { moves.old.moves ≡ [] }
    requires room { count ≤ moves.old.room }
    ensures read { MatchOption result (read_moves count input.now ≡ None)
        (λ rest. read_moves count input.now ≡ Some (moves.new.moves, rest.now)) }
    ensures room { moves.new.room + length moves.new.moves ≡ moves.old.room }
{
    let mut rest = input;
    let mut left = count;
    while left > 0 {
        let Some(after) = take_move(rest, moves) else {
            return None;
        };
        rest = after;
        left -= 1;
    }
    Some(rest)
}

// A line, whose moves are put into the list, and what stands after it.
fn take_line<'a>(
    input: &'a [u8],
    place: u32,
    most: u32,
    moves: &mut MoveList,
) -> Option<(Head, &'a [u8])>
    requires empty { moves.old.moves ≡ [] }
    requires room { MAX_MOVES ≤ moves.old.room }
    ensures read { MatchOption result (read_line most place input.now ≡ None)
        (λ r. read_line most place input.now
        ≡ Some (record { head = r.0; moves = moves.new.moves }, r.1.now)) }
    ensures room { moves.new.room + length moves.new.moves ≡ moves.old.room }
{
    if place == 0 {
        return None;
    }
    let ((head, count), rest) = head(input, place, most)?;
    let rest = take_moves(rest, count, moves)?;
    Some((head, rest))
}

/// The line at a place, from 1, with whose text the input begins, and the length of that text, where the line is of no
/// message above `most`. The list then holds the line's moves. Where the input begins with no such text, the fault carries
/// the place, and the list is empty again. Takes no memory.
pub fn read_line(
    input: &[u8],
    place: LinePlace,
    most: MessageNumber,
    moves: &mut MoveList,
) -> Result<(Head, usize), JournalFault>
    requires empty { moves.old.moves ≡ [] }
    requires room { MAX_MOVES ≤ moves.old.room }
    ensures ok { IfOk result (λ r. read_line most place input.now
        ≡ Some (record { head = r.0; moves = moves.new.moves }, drop r.1 input.now)) }
    ensures length { IfOk result (λ r. r.1
        ≡ length (line_text place (record { head = r.0; moves = moves.new.moves }))) }
    ensures err { IfErr result (λ fault. (read_line most place input.now ≡ None) × (fault.place ≡ place)
        × (moves.new ≡ moves.old)) }
    ensures room { moves.new.room + length moves.new.moves ≡ moves.old.room }
{
    match take_line(input, place, most, moves) {
        Some((head, rest)) => Ok((head, input.len() - rest.len())),
        None => {
            moves.clear();
            Err(JournalFault { place })
        }
    }
}

/// The text of each line within the limits, with a message no higher than who reads says, is read as that line, whatever
/// follows it, and nothing else is read. Within the limits or not, two lines at one place have two texts, and neither begins the other, as long as their numbers are below
/// 2^64. Every line in hand keeps that.
pub fn one_line_each()
    ensures read { LinesAreRead }
    ensures nothing_else { OnlyLinesAreRead }
    ensures tell { TextsTellLines }
{}
