//! What each item of a day moves, found message by message.
ghost use Rattle.std.specs.Prelude.{◌≡◌, ◌≤◌, ◌<◌, ◌+◌, ◌-◌, ◌++◌, ◌∷◌, true, None, [], List, IfOk, length, option_map, sum_by, unwrap_or};
ghost use Rattle.refused_memory.specs.declared.lists.TheConstants.{MOST};
ghost use Rattle.commit_journal.specs.declared.line.Move.{Move};
ghost use Rattle.account_book.specs.Directory.{find_account};
ghost use Rattle.batch_records.specs.Flat.{body_with_entries};
ghost use Rattle.batch_records.specs.Sound.{is_sound};
ghost use Rattle.machine.specs.Records.Messages.{entries, move_of, transfer_in};
ghost use Rattle.machine.specs.Words.{numbered};
ghost use Rattle.rule_book.specs.Moves.{entry_moves, row_in, transfer_move, with_moves};
ghost use Rattle.rule_book.specs.Settings.{move_in, moves_of, setup_of};

use crate::book_names::number_of;
use crate::parts::{entries, message};
use account_book::Book;
use batch_records::{Day, Entry, RecordBody};
use cash_amounts::{Cents, EntryNumber, Memory, MessageNumber, Name};
use commit_journal::Move;
use refused_memory::with_capacity;
use row_list::RowList;
use std::alloc::Global;
use std::marker::Model;

/// For each of some messages, one after another, what it moves itself, as a payment or a liquidity transfer, and a row of what its
/// entries move.
#[derive(Drop)]
pub struct ItemMoves {
    transfers: Vec<Option<Move>>,
    rows: RowList<Move>,
    messages: usize,
    entries: usize,
}

impl Model for ItemMoves {
    ghost use Rattle.std.specs.Prelude.{length, vec_capacity};
    ghost use Rattle.rule_book.specs.Moves.{HasMoves, MovesInRoom};

    ghost Value = { MovesInRoom };

    ghost view = { λ found. record {
      list = record { transfers = found.transfers.items; rows = found.rows.rows };
      messages = found.messages;
      entries = found.entries;
    } };

    ghost invariant = { λ found. HasMoves (length found.transfers.items) (vec_capacity found.transfers) found.messages
        found.entries found.rows };
}

// ---- the move of one item

fn move_between(book: &Book, debit: &Name, credit: &Name, amount: Cents) -> Move
    ensures { result ≡ record {
      debit = unwrap_or (find_account book.now.accounts debit.now) 0;
      credit = unwrap_or (find_account book.now.accounts credit.now) 0;
      amount = amount;
    } }
{
    Move {
        debit: number_of(book, debit),
        credit: number_of(book, credit),
        amount,
    }
}

fn transfer_in(day: &Day, book: &Book, body: &RecordBody) -> Option<Move>
    requires { book.now ≡ setup_of day.now }
    ensures { result ≡ option_map (move_of day.now) (transfer_in (body_with_entries body.now [])) }
{
    match body {
        RecordBody::Pay {
            debit,
            credit,
            amount,
            ..
        }
        | RecordBody::Liquidity {
            debit,
            credit,
            amount,
        } => Some(move_between(book, debit, credit, *amount)),
        _ => None,
    }
}

fn transfer_move(day: &Day, book: &Book, n: u32) -> Option<Move>
    requires { book.now ≡ setup_of day.now }
    ensures { result ≡ transfer_move day.now n }
{
    match message(day, n) {
        Some(message) => transfer_in(day, book, &message.body),
        None => None,
    }
}

fn entry_move(day: &Day, book: &Book, entry: &Entry) -> Move
    requires { book.now ≡ setup_of day.now }
    ensures { result ≡ move_of day.now entry.now }
{
    move_between(book, &entry.debit, &entry.credit, entry.amount)
}

// ---- one message

// Puts the moves of the entries of message n into the last row, which is empty. Takes no memory.
fn push_moves(rows: &mut RowList<Move>, day: &Day, book: &Book, n: u32)
    requires filed { book.now ≡ setup_of day.now }
    requires begun { 0 < length rows.old.rows }
    requires room { length (entries day.now n) ≤ rows.old.room_for_items }
    ensures last { (done : List (List Move)) → rows.old.rows ≡ done ++ [] ∷ []
        → rows.new.rows ≡ done ++ entry_moves day.now n ∷ [] }
    ensures rows { rows.new.room_for_rows ≡ rows.old.room_for_rows }
    ensures items { rows.new.room_for_items + length (entries day.now n) ≡ rows.old.room_for_items }
{
    for entry in entries(day, n) {
        rows.push_in_room(entry_move(day, book, entry));
    }
}

// The row of message n. Takes no memory.
fn push_row(rows: &mut RowList<Move>, day: &Day, book: &Book, n: u32)
    requires filed { book.now ≡ setup_of day.now }
    requires row { 0 < rows.old.room_for_rows }
    requires room { length (entries day.now n) ≤ rows.old.room_for_items }
    ensures rows { rows.new.rows ≡ rows.old.rows ++ entry_moves day.now n ∷ [] }
    ensures row { rows.new.room_for_rows ≡ rows.old.room_for_rows - 1 }
    ensures items { rows.new.room_for_items + length (entries day.now n) ≡ rows.old.room_for_items }
{
    rows.begin_row_in_room();
    push_moves(rows, day, book, n);
}

impl ItemMoves {
    // No messages, with room for so many, and for so many entries of all of them.
    pub(crate) fn with_room(
        alloc: Global,
        messages: usize,
        entries: usize,
    ) -> Result<ItemMoves, Memory>
        requires { (messages ≤ MOST) × (entries ≤ MOST) }
        ensures { IfOk result (λ moves. moves ≡ record {
          list = record { transfers = []; rows = [] };
          messages = messages;
          entries = entries;
        }) }
    {
        let transfers = with_capacity(alloc, messages)?;
        let rows = RowList::with_room(alloc, messages, entries)?;
        Ok(ItemMoves {
            transfers,
            rows,
            messages,
            entries,
        })
    }

    // Takes message n of a day, which comes next, by the book of the day. Takes no memory.
    pub(crate) fn arrive(&mut self, day: &Day, book: &Book, n: u32)
        requires filed { book.now ≡ setup_of day.now }
        requires message { length self.old.list.rows < self.old.messages }
        requires entries { sum_by length self.old.list.rows + length (entries day.now n)
            ≤ self.old.entries }
        ensures { self.new ≡ with_moves day.now n self.old }
    {
        self.transfers.push_reserved(transfer_move(day, book, n));
        push_row(&mut self.rows, day, book, n);
    }

    // The moves of a sound day, by its book. `Memory` says that there wasn't enough of it.
    pub(crate) fn build(alloc: Global, day: &Day, book: &Book) -> Result<ItemMoves, Memory>
        requires sound { is_sound day.now ≡ true }
        requires filed { book.now ≡ setup_of day.now }
        ensures { IfOk result (λ moves. moves.list ≡ moves_of day.now) }
    {
        let count = day.message_count();
        let mut moves = ItemMoves::with_room(alloc, count, day.entry_count())?;
        for before in 0..count as u32 {
            moves.arrive(day, book, before + 1);
        }
        Ok(moves)
    }

    /// What item k of message n moves: entry k of a batch, or with 0 the message itself. `None` where it moves nothing by
    /// itself.
    pub fn at(&self, n: MessageNumber, k: EntryNumber) -> Option<Move>
        ensures { result ≡ move_in self.now.list n k }
    {
        if k == 0 {
            transfer_at(self.transfers.as_slice(), n)
        } else {
            move_at(self.entries(n), k)
        }
    }

    /// What the entries of message n move, in file order.
    pub fn entries(&self, n: MessageNumber) -> &[Move]
        ensures { result.now ≡ row_in self.now.list.rows n }
    {
        row_of(&self.rows, n)
    }
}

fn transfer_at(transfers: &[Option<Move>], n: u32) -> Option<Move>
    ensures { result ≡ unwrap_or (numbered transfers.now n) None }
{
    if n == 0 {
        return None;
    }
    match transfers.get(n as usize - 1) {
        Some(found) => *found,
        None => None,
    }
}

// The move of the entry of a number.
fn move_at(moves: &[Move], k: u32) -> Option<Move>
    ensures { result ≡ numbered moves.now k }
{
    if k == 0 {
        return None;
    }
    match moves.get(k as usize - 1) {
        Some(found) => Some(*found),
        None => None,
    }
}

// Row n of rows that count from 1, empty where there is none.
fn row_of(rows: &RowList<Move>, n: u32) -> &[Move]
    ensures { result.now ≡ row_in rows.now.rows n }
{
    if n == 0 {
        return &[];
    }
    rows.row(n as usize - 1)
}
