//! The text of lines in words.
ghost use Rattle.std.specs.Prelude.{◌≡◌, ◌≤◌, ◌-◌, ◌++◌, ◌∷◌, length};
ghost use Rattle.commit_journal.specs.Histories.{oldest};
ghost use Rattle.commit_journal.specs.declared.line.Kind.TheVariants as kinds;
ghost use Rattle.outside_io.specs.Calls.{Puts};
ghost use Rattle.day_page.specs.LineTexts.{about, booked_entry, budget_after, each_move, has_message, head_words, is_recent, item_end, item_head, item_text, line_words, lines_end, lines_text, most_for, most_lines, move_words, moved_cents, moves_words, recent_part, recent_text, sum_words, with_code, words_before, words_behind};

use crate::classes::word_of;
use crate::markup::{
    account_name, amount, clock_bytes, message_id, put_if, put_pieces, sender_name,
};
use crate::parties::is_line_of;
use crate::words::Request;
use commit_journal::{Code, Head, Journal, Kind, Move};
use itoa::Buffer;
use outside_io::{Sink, WriteFault, put_all};
use rule_book::Setting;

// ---- moves

#[tactic(auto, unfolding(crate::specs::LineTexts::move_words))]
fn put_move<S: Sink>(setting: &Setting, one: &Move, sink: &mut S) -> Result<(), WriteFault>
    ensures { Puts (S.state sink.old) (S.state sink.new) (move_words setting.now.day one.now)
        result }
{
    let cents = amount(u128::from(one.amount.get()));
    let pieces: [&[u8]; 6] = [
        cents.as_bytes(),
        b" from ",
        account_name(setting, one.debit),
        b" to ",
        account_name(setting, one.credit),
        b": ",
    ];
    put_pieces(sink, &pieces)
}

#[tactic(auto, unfolding(crate::specs::LineTexts::moved_cents))]
fn moved_cents(moves: &[Move]) -> u128
    ensures { result ≡ moved_cents moves.now }
{
    moves.iter().map(|one| u128::from(one.amount.get())).sum()
}

#[tactic(auto, unfolding(crate::specs::LineTexts::sum_words))]
fn put_sum<S: Sink>(moves: &[Move], sink: &mut S) -> Result<(), WriteFault>
    ensures { Puts (S.state sink.old) (S.state sink.new) (sum_words moves.now) result }
{
    let mut count = Buffer::new();
    let sum = amount(moved_cents(moves));
    let pieces: [&[u8]; 4] = [
        count.format(moves.len()).as_bytes(),
        b" moves, ",
        sum.as_bytes(),
        b" in all: ",
    ];
    put_if(sink, 1 < moves.len(), &pieces)
}

fn put_each<S: Sink>(setting: &Setting, moves: &[Move], sink: &mut S) -> Result<(), WriteFault>
    ensures { Puts (S.state sink.old) (S.state sink.new) (each_move setting.now.day moves.now)
        result }
{
    for one in moves {
        put_move(setting, one, sink)?;
    }
    Ok(())
}

#[tactic(auto, unfolding(crate::specs::LineTexts::moves_words))]
fn put_moves<S: Sink>(setting: &Setting, moves: &[Move], sink: &mut S) -> Result<(), WriteFault>
    ensures { Puts (S.state sink.old) (S.state sink.new) (moves_words setting.now.day moves.now)
        result }
{
    if moves.len() == 1 {
        put_each(setting, moves, sink)
    } else {
        put_sum(moves, sink)
    }
}

// ---- what the line is about

#[tactic(auto, unfolding(crate::specs::LineTexts::booked_entry))]
fn put_entry<S: Sink>(k: u32, sink: &mut S) -> Result<(), WriteFault>
    ensures { Puts (S.state sink.old) (S.state sink.new) (booked_entry k) result }
{
    let mut digits = Buffer::new();
    let pieces: [&[u8]; 3] = [b"entry ", digits.format(k).as_bytes(), b" of "];
    put_if(sink, 0 < k, &pieces)
}

#[tactic(auto, unfolding(crate::specs::LineTexts::words_before))]
fn put_clock<S: Sink>(setting: &Setting, seconds: u32, sink: &mut S) -> Result<(), WriteFault>
    ensures { Puts (S.state sink.old) (S.state sink.new)
        (words_before kinds.Time setting.now.day seconds) result }
{
    let clock = clock_bytes(seconds);
    let pieces: [&[u8]; 2] = [b"the clock goes to ", &clock];
    put_pieces(sink, &pieces)
}

#[tactic(auto, unfolding(crate::specs::LineTexts::words_before))]
fn put_sub<S: Sink>(setting: &Setting, a: u32, sink: &mut S) -> Result<(), WriteFault>
    ensures { Puts (S.state sink.old) (S.state sink.new)
        (words_before kinds.Sweep setting.now.day a) result }
{
    let pieces: [&[u8]; 3] = [
        b"sub-account ",
        account_name(setting, a),
        b" gives back what it holds",
    ];
    put_pieces(sink, &pieces)
}

#[tactic(auto, unfolding(crate::specs::LineTexts::words_before))]
fn put_before<S: Sink>(
    setting: &Setting,
    kind: Kind,
    k: u32,
    sink: &mut S,
) -> Result<(), WriteFault>
    ensures { Puts (S.state sink.old) (S.state sink.new) (words_before kind setting.now.day k)
        result }
{
    match kind {
        Kind::Book => put_entry(k, sink),
        Kind::Time => put_clock(setting, k, sink),
        Kind::Ask => put_all(sink, b"the fund is asked for "),
        Kind::Cover => put_all(sink, b"the fund pays for "),
        Kind::Refuse => put_all(sink, b"the fund is refused to "),
        Kind::Sweep => put_sub(setting, k, sink),
        Kind::End => put_all(sink, b"the day ends"),
        Kind::In | Kind::All | Kind::Expire => put_all(sink, b""),
    }
}

fn has_message(kind: Kind) -> bool
    ensures { result ≡ has_message kind }
{
    match kind {
        Kind::Time | Kind::Sweep | Kind::End => false,
        _ => true,
    }
}

#[tactic(auto, unfolding(crate::specs::LineTexts::about))]
fn put_about<S: Sink>(setting: &Setting, kind: Kind, n: u32, sink: &mut S) -> Result<(), WriteFault>
    ensures { Puts (S.state sink.old) (S.state sink.new) (about kind setting.now.day n) result }
{
    let pieces: [&[u8]; 5] = [
        word_of(setting, n),
        b" ",
        message_id(setting, n),
        b" of ",
        sender_name(setting, n),
    ];
    put_if(sink, has_message(kind), &pieces)
}

fn put_code<S: Sink>(words: &[u8], code: Code, sink: &mut S) -> Result<(), WriteFault>
    ensures { Puts (S.state sink.old) (S.state sink.new) (with_code words.now code) result }
{
    put_all(sink, words)?;
    put_all(sink, code.text())
}

#[tactic(auto, unfolding(crate::specs::LineTexts::words_behind))]
fn put_behind<S: Sink>(kind: Kind, code: Code, sink: &mut S) -> Result<(), WriteFault>
    ensures { Puts (S.state sink.old) (S.state sink.new) (words_behind kind code) result }
{
    match kind {
        Kind::In => put_code(b" taken, code ", code, sink),
        Kind::Book => put_all(sink, b" booked"),
        Kind::All => put_all(sink, b" booked whole"),
        Kind::Expire => put_code(b" expires, code ", code, sink),
        Kind::Refuse => put_code(b", code ", code, sink),
        Kind::Time | Kind::Ask | Kind::Cover | Kind::Sweep | Kind::End => put_all(sink, b""),
    }
}

fn put_message<S: Sink>(setting: &Setting, head: Head, sink: &mut S) -> Result<(), WriteFault>
    ensures { Puts (S.state sink.old) (S.state sink.new)
        (about head.kind setting.now.day head.msg ++ words_behind head.kind head.code) result }
{
    put_about(setting, head.kind, head.msg, sink)?;
    put_behind(head.kind, head.code, sink)
}

#[tactic(auto, unfolding(crate::specs::LineTexts::head_words))]
fn put_head<S: Sink>(setting: &Setting, head: Head, sink: &mut S) -> Result<(), WriteFault>
    ensures { Puts (S.state sink.old) (S.state sink.new) (head_words setting.now.day head) result }
{
    put_before(setting, head.kind, head.entry, sink)?;
    put_message(setting, head, sink)
}

#[tactic(auto, unfolding(crate::specs::LineTexts::line_words))]
fn put_words<S: Sink>(
    setting: &Setting,
    head: Head,
    moves: &[Move],
    sink: &mut S,
) -> Result<(), WriteFault>
    ensures { Puts (S.state sink.old) (S.state sink.new)
        (line_words setting.now.day (record { head = head; moves = moves.now })) result }
{
    put_moves(setting, moves, sink)?;
    put_head(setting, head, sink)
}

fn put_words_and_end<S: Sink>(
    setting: &Setting,
    head: Head,
    moves: &[Move],
    sink: &mut S,
) -> Result<(), WriteFault>
    ensures { Puts (S.state sink.old) (S.state sink.new)
        (line_words setting.now.day (record { head = head; moves = moves.now }) ++ item_end)
        result }
{
    put_words(setting, head, moves, sink)?;
    put_all(sink, b"</li>\n")
}

#[tactic(auto, unfolding(crate::specs::LineTexts::item_head))]
fn put_place<S: Sink>(place: u32, sink: &mut S) -> Result<(), WriteFault>
    ensures { Puts (S.state sink.old) (S.state sink.new) (item_head place) result }
{
    let mut digits = Buffer::new();
    let pieces: [&[u8]; 3] = [b"<li value='", digits.format(place).as_bytes(), b"'>"];
    put_pieces(sink, &pieces)
}

#[tactic(auto, unfolding(crate::specs::LineTexts::item_text))]
fn put_item<S: Sink>(
    setting: &Setting,
    place: u32,
    head: Head,
    moves: &[Move],
    sink: &mut S,
) -> Result<(), WriteFault>
    ensures { Puts (S.state sink.old) (S.state sink.new)
        (item_text setting.now.day place (record { head = head; moves = moves.now })) result }
{
    put_place(place, sink)?;
    put_words_and_end(setting, head, moves, sink)
}

// ---- the newest lines of the party

fn is_recent(setting: &Setting, request: &Request, budget: u32, head: Head, moves: &[Move]) -> bool
    ensures { result ≡ is_recent setting.now.day request.now budget
        (record { head = head; moves = moves.now }) }
{
    0 < budget && is_line_of(setting, request, head, moves)
}

#[tactic(auto, unfolding(crate::specs::LineTexts::recent_part))]
fn put_recent_line<S: Sink>(
    setting: &Setting,
    request: &Request,
    budget: u32,
    place: u32,
    head: Head,
    moves: &[Move],
    sink: &mut S,
) -> Result<(), WriteFault>
    ensures { Puts (S.state sink.old) (S.state sink.new)
        (recent_part setting.now.day request.now budget place
        (record { head = head; moves = moves.now })) result }
{
    if is_recent(setting, request, budget, head, moves) {
        put_item(setting, place, head, moves, sink)
    } else {
        Ok(())
    }
}

fn budget_after(
    setting: &Setting,
    request: &Request,
    budget: u32,
    head: Head,
    moves: &[Move],
) -> u32
    ensures { result ≡ budget_after setting.now.day request.now budget
        (record { head = head; moves = moves.now }) }
{
    if is_recent(setting, request, budget, head, moves) {
        budget.saturating_sub(1)
    } else {
        budget
    }
}

fn put_recent<S: Sink>(
    setting: &Setting,
    request: &Request,
    journal: &Journal,
    most: u32,
    sink: &mut S,
) -> Result<(), WriteFault>
    ensures { Puts (S.state sink.old) (S.state sink.new)
        (recent_text setting.now.day request.now most journal.now.history) result }
{
    let mut budget = most;
    let count = journal.len();
    for done in 0..count {
        let (head, moves) = journal.line(count - done);
        put_recent_line(setting, request, budget, count - done, head, moves, sink)?;
        budget = budget_after(setting, request, budget, head, moves);
    }
    Ok(())
}

fn most_lines(request: &Request) -> u32
    ensures { result ≡ most_lines request.now }
{
    match &request.party {
        Some(_) => 5000,
        None => 100,
    }
}

fn put_recent_and_end<S: Sink>(
    setting: &Setting,
    request: &Request,
    journal: &Journal,
    sink: &mut S,
) -> Result<(), WriteFault>
    ensures { Puts (S.state sink.old) (S.state sink.new)
        (recent_text setting.now.day request.now (most_lines request.now) journal.now.history
        ++ lines_end) result }
{
    put_recent(setting, request, journal, most_lines(request), sink)?;
    put_all(sink, b"</ol></section>\n")
}

/// Writes the newest lines of the party in words.
#[tactic(auto, unfolding(crate::specs::LineTexts::lines_text))]
pub fn put_lines<S: Sink>(
    setting: &Setting,
    request: &Request,
    journal: &Journal,
    sink: &mut S,
) -> Result<(), WriteFault>
    ensures { Puts (S.state sink.old) (S.state sink.new)
        (lines_text setting.now.day request.now journal.now.history) result }
{
    put_all(
        sink,
        b"<section id='lines'><h2>Lines in words</h2>\n<p>The newest first, each with its place in the journal: of the whole day up to a hundred, of a party up to five thousand that are about its messages or move something on its accounts.</p>\n<ol class='lines'>\n",
    )?;
    put_recent_and_end(setting, request, journal, sink)
}
