//! What the line of a want is made of: its head and its moves.
ghost use Rattle.std.specs.Prelude.{◌≡◌, ◌≤◌, ◌<◌, ◌+◌, ◌-◌, ◌&&◌, true, [], ◌∷◌, ◌++◌, filter, length, map, if◌then◌else◌};
ghost use Rattle.rule_book.specs.Answering.{HasMoves};
ghost use Rattle.machine.specs.Making.Lines.{debit_entries_by, moves_of_part, return_of, reversal};
ghost use Rattle.machine.specs.Records.Messages.{entries, entry_at, move_of, side, sort_of};
ghost use Rattle.rule_book.specs.Moves.{given_back, goes_on_side, goes_to};
ghost use Rattle.machine.specs.Stages.Phases.{is_booked};

use crate::batches::{goes_to, technical_of};
use crate::desk::Desk;
use crate::parts::{entry_move, entry_moves};
use crate::setting::Setting;
use crate::sorts::is_a;
use cash_amounts::{EntryNumber, MessageNumber};
use commit_journal::{Code, Head, Kind, Move, MoveList};

/// The head of a line of this kind about entry `entry` of message `msg`, or with 0 about the message itself.
pub fn head(kind: Kind, msg: MessageNumber, entry: EntryNumber, code: Code) -> Head
    ensures { result ≡ record { kind = kind; msg = msg; entry = entry; code = code } }
{
    Head {
        kind,
        msg,
        entry,
        code,
    }
}

// ---- one entry

/// Adds the move of entry k of batch n, where there is such an entry.
pub fn push_entry(setting: &Setting, n: MessageNumber, k: EntryNumber, moves: &mut MoveList)
    requires room { length (entries setting.now.day n) ≤ moves.old.room }
    ensures moves { moves.new.moves
        ≡ moves.old.moves ++ moves_of_part setting.now.day (entry_at setting.now.day n k) }
    ensures room { HasMoves moves.old moves.new }
{
    if let Some(found) = entry_move(setting, n, k) {
        moves.push(found);
    }
}

// ---- the entries of a side

// Whether the move of an entry is on the debit side, or on the credit side.
fn goes_on_side(found: &Move, technical: Option<u32>, debits: bool) -> bool
    ensures { result ≡ goes_on_side debits technical found.now }
{
    if debits {
        goes_to(found, technical)
    } else {
        !goes_to(found, technical)
    }
}

// Adds a move, where it is on this side.
fn push_on_side(found: &Move, technical: Option<u32>, debits: bool, moves: &mut MoveList)
    requires { goes_on_side debits technical found.now ≡ true → 1 ≤ moves.old.room }
    ensures { moves.new ≡ (if goes_on_side debits technical found.now then record {
      moves = moves.old.moves ++ found.now ∷ [];
      room = moves.old.room - 1;
    } else moves.old) }
{
    if goes_on_side(found, technical, debits) {
        moves.push(*found);
    }
}

// Adds those that are on this side, in order.
fn push_sided(listed: &[Move], technical: Option<u32>, debits: bool, moves: &mut MoveList)
    requires { length (filter (goes_on_side debits technical) listed.now) ≤ moves.old.room }
    ensures made { moves.new.moves
        ≡ moves.old.moves ++ filter (goes_on_side debits technical) listed.now }
    ensures room { moves.new.room + length (filter (goes_on_side debits technical) listed.now)
        ≡ moves.old.room }
{
    for found in listed {
        push_on_side(found, technical, debits, moves);
    }
}

/// Adds the moves of the debit entries of batch n of A or B, or of its credit entries, in file order.
pub fn push_side(setting: &Setting, n: MessageNumber, debits: bool, moves: &mut MoveList)
    requires { length (side debits setting.now.day n) ≤ moves.old.room }
    ensures made { moves.new.moves
        ≡ moves.old.moves ++ map (move_of setting.now.day) (side debits setting.now.day n) }
    ensures room { moves.new.room + length (side debits setting.now.day n) ≡ moves.old.room }
{
    push_sided(
        entry_moves(setting, n),
        technical_of(setting, n),
        debits,
        moves,
    );
}

// ---- what is given back

// The move that gives an entry back, by the entry's own: from the technical account to its debit account.
fn given_back(found: &Move, technical: Option<u32>) -> Move
    ensures { result ≡ given_back technical found.now }
{
    Move {
        debit: technical.unwrap_or(0),
        credit: found.debit,
        amount: found.amount,
    }
}

// Gives entry k back, which has this move, if it is a booked debit entry.
fn give_back<D: Desk>(
    desk: &D,
    n: u32,
    k: u32,
    found: &Move,
    technical: Option<u32>,
    moves: &mut MoveList,
)
    requires room { 0 < moves.old.room }
    ensures moves { moves.new.moves
        ≡ moves.old.moves
        ++ (if goes_to technical found.now && is_booked (D.past desk.now) n k then given_back technical
        found.now ∷ [] else []) }
    ensures room { HasMoves moves.old moves.new }
    ensures one { length moves.new.moves ≤ length moves.old.moves + 1 }
{
    if goes_to(found, technical) && desk.booked(n, k).is_some() {
        moves.push(given_back(found, technical));
    }
}

// Gives the booked debit entries of a batch back, in their order.
fn return_booked<D: Desk>(desk: &D, n: u32, moves: &mut MoveList)
    requires empty { moves.old.moves ≡ [] }
    requires room { length (entries (D.day desk.now) n) ≤ moves.old.room }
    ensures moves { moves.new.moves
        ≡ map (return_of (D.day desk.now) n)
        (debit_entries_by (D.day desk.now) n (is_booked (D.past desk.now) n)) }
    ensures room { HasMoves moves.old moves.new }
{
    let technical = technical_of(desk.setting(), n);
    let listed = entry_moves(desk.setting(), n);
    for (i, found) in listed.iter().enumerate() {
        give_back(desk, n, i as u32 + 1, found, technical, moves);
    }
}

/// Adds what a batch of A gives back where it isn't settled: of each booked debit entry, in order, its amount from the
/// technical account to its debit account. Of another message nothing.
pub fn push_reversal<D: Desk>(desk: &D, n: MessageNumber, moves: &mut MoveList)
    requires empty { moves.old.moves ≡ [] }
    requires room { length (entries (D.day desk.now) n) ≤ moves.old.room }
    ensures moves { moves.new.moves
        ≡ reversal (sort_of (D.day desk.now) n) (D.day desk.now) (D.past desk.now) n }
    ensures room { HasMoves moves.old moves.new }
{
    if is_a(desk.setting(), n) {
        return_booked(desk, n, moves);
    }
}
