//! The replay of a journal: the machine makes each line that the text says, and the two are compared.
ghost use Rattle.std.specs.Prelude.{◌≡◌, ◌<◌, ◌∷◌, ◌&&◌, suc, true, false, None, Some, [], length, if◌then◌else◌, IfOk, MatchOption};
ghost use Rattle.cash_amounts.specs.Numbers.{numbered};
ghost use Rattle.batch_records.specs.Versions.{most_messages};
ghost use Rattle.commit_journal.specs.declared.move_list.TheConstants.{MAX_MOVES};
ghost use Rattle.commit_journal.specs.Line.{Line};
ghost use Rattle.machine.specs.Orders.Bounds.{line_limit};
ghost use Rattle.machine.specs.Legal.{is_complete, want_as};
ghost use Rattle.machine.specs.Telling.History.{is_end};
ghost use Rattle.machine.specs.Words.{is_empty};
ghost use Rattle.settle_floor.specs.Floors.{AtWork};
ghost use Rattle.journal_replay.specs.declared.judging.Verdict.TheVariants.{Legal, Illegal};
ghost use Rattle.journal_replay.specs.Same.{line_with, IsMachines};
ghost use Rattle.journal_replay.specs.Verdicts.{longest, next_line, verdict};
ghost use Rattle.journal_replay.specs.VerdictLaws.{Holds, VerdictsHold, NoOtherHolds, WholeJournalsAreLegal, SettledDaysAreLegal};

use crate::same::same_line;
use account_book::OneTill;
use batch_records::most_messages;
use cash_amounts::{Memory, MessageNumber};
use commit_journal::{Head, Kind, MAX_MOVES, Move, MoveList, Want, read_line};
use rule_book::Setting;
use settle_floor::Floor;
use std::alloc::Global;

/// What is said of a text that may be the journal of a day.
#[derive(Clone, Copy, Debug, PartialEq, Eq)]
pub enum Verdict {
    /// It is the text of a complete legal journal of the day, which has so many lines, and of nothing else.
    Legal { lines: u32 },
    /// The first place, from 1, at which it has no line, or another line than the machine's. Bytes after the End line stand
    /// at the place after it.
    Illegal { place: u32 },
}

// The want that a line with this head answers.
fn want_of(head: Head) -> Want
    ensures { result ≡ want_as head.kind head.msg head.entry }
{
    match head.kind {
        Kind::In => Want::In { msg: head.msg },
        Kind::Book => Want::Book {
            msg: head.msg,
            entry: head.entry,
        },
        Kind::All => Want::All { msg: head.msg },
        Kind::Time => Want::Time,
        Kind::Expire => Want::Expire { msg: head.msg },
        Kind::Ask => Want::Ask { msg: head.msg },
        Kind::Cover => Want::Cover { msg: head.msg },
        Kind::Refuse => Want::Refuse { msg: head.msg },
        Kind::Sweep => Want::Sweep {
            account: head.entry,
        },
        Kind::End => Want::End,
    }
}

fn is_end(kind: Kind) -> bool
    ensures { result ≡ is_end kind }
{
    matches!(kind, Kind::End)
}

// Whether the machine answers the line's want with this line. If it does, the floor and the till then have the line.
fn answers(
    setting: &Setting,
    floor: &mut Floor,
    till: &mut OneTill,
    head: Head,
    moves: &[Move],
) -> bool
    requires at_work { AtWork setting.now.day floor.old (numbered till.old) }
    ensures made { result ≡ true
        → IsMachines setting.now.day floor.old.journal.history (line_with head moves.now)
        × (floor.new.journal.history ≡ line_with head moves.now ∷ floor.old.journal.history) }
    ensures other { result ≡ false
        → IsMachines setting.now.day floor.old.journal.history (line_with head moves.now) → ⊥ }
    ensures at_work { AtWork setting.now.day floor.new (numbered till.new) }
{
    match floor.answer(setting, till, want_of(head)) {
        Ok(place) => {
            let (own, own_moves) = floor.journal().line(place);
            same_line(own, own_moves, head, moves)
        }
        Err(_) => false,
    }
}

// Before the clock moves or the day ends the floor has to know that nothing is ready.
fn renew_before(setting: &Setting, floor: &mut Floor, till: &OneTill, kind: Kind)
    requires at_work { AtWork setting.now.day floor.old (numbered till.now) }
    ensures journal { floor.new.journal ≡ floor.old.journal }
    ensures at_work { AtWork setting.now.day floor.new (numbered till.now) }
{
    match kind {
        Kind::Time | Kind::End => floor.renew(setting, till),
        _ => {}
    }
}

// Whether the machine makes this line next. If it does, the floor and the till then have the line.
fn makes(
    setting: &Setting,
    floor: &mut Floor,
    till: &mut OneTill,
    head: Head,
    moves: &[Move],
) -> bool
    requires at_work { AtWork setting.now.day floor.old (numbered till.old) }
    ensures made { result ≡ true
        → IsMachines setting.now.day floor.old.journal.history (line_with head moves.now)
        × (floor.new.journal.history ≡ line_with head moves.now ∷ floor.old.journal.history) }
    ensures other { result ≡ false
        → IsMachines setting.now.day floor.old.journal.history (line_with head moves.now) → ⊥ }
    ensures at_work { AtWork setting.now.day floor.new (numbered till.new) }
{
    renew_before(setting, floor, till, head.kind);
    answers(setting, floor, till, head, moves)
}

/// The highest number of a message that a line may name, by the version of the day.
pub fn highest_message(setting: &Setting) -> MessageNumber
    ensures { result ≡ most_messages setting.now.day.version }
{
    most_messages(setting.day.version()) as u32
}

/// The machine's line with which the text begins, if it begins with one: whether it is the End line, and what stands after it.
/// Floor and till then have the line. Where there is none, they may have got another line for the want that the text names, so the
/// floor is of no more use then. The list of moves, which has room for one line's, is empty again. Takes no memory.
pub fn follow_line<'a>(
    setting: &Setting,
    floor: &mut Floor,
    till: &mut OneTill,
    moves: &mut MoveList,
    text: &'a [u8],
) -> Option<(bool, &'a [u8])>
    requires at_work { AtWork setting.now.day floor.old (numbered till.old) }
    requires moves { moves.old ≡ record { moves = []; room = MAX_MOVES } }
    ensures next { MatchOption result
        (next_line setting.now.day floor.old.journal.history text.now ≡ None)
        (λ r. (l : Line)
        × (next_line setting.now.day floor.old.journal.history text.now ≡ Some (l, r.1.now))
        × (floor.new.journal.history ≡ l ∷ floor.old.journal.history)
        × (r.0 ≡ is_end l.head.kind)) }
    ensures at_work { AtWork setting.now.day floor.new (numbered till.new) }
    ensures moves { moves.new ≡ record { moves = []; room = MAX_MOVES } }
{
    let place = floor.journal().len() + 1;
    let Ok((head, length)) = read_line(text, place, highest_message(setting), moves) else {
        return None;
    };
    let is_next = makes(setting, floor, till, head, moves.as_slice());
    moves.clear();
    if is_next {
        Some((is_end(head.kind), &text[length..]))
    } else {
        None
    }
}

// With how many of the machine's lines the text begins, whether the last of them is the End line, and what stands after
// them.
fn follow<'a>(
    setting: &Setting,
    floor: &mut Floor,
    till: &mut OneTill,
    moves: &mut MoveList,
    text: &'a [u8],
) -> (u32, bool, &'a [u8])
    requires at_work { AtWork setting.now.day floor.old (numbered till.old) }
    requires empty { floor.old.journal.history ≡ [] }
    requires moves { moves.old ≡ record { moves = []; room = MAX_MOVES } }
    ensures lines { result.0 ≡ length (longest setting.now.day text.now).0 }
    ensures ended { result.1 ≡ is_complete (longest setting.now.day text.now).0 }
    ensures rest { result.2.now ≡ (longest setting.now.day text.now).1 }
    ensures few { result.0 < line_limit }
{
    let mut rest = text;
    let mut lines = 0;
    let mut ended = false;
    'lines: while let Some((end, after)) = follow_line(setting, floor, till, moves, rest) {
        rest = after;
        ended = end;
        lines += 1;
    }
    (lines, ended, rest)
}

fn verdict_on(lines: u32, ended: bool, rest: &[u8]) -> Verdict
    requires { lines < line_limit }
    ensures { result ≡ (if ended && is_empty rest.now then Legal lines else Illegal (suc lines)) }
{
    if ended && rest.is_empty() {
        Verdict::Legal { lines }
    } else {
        Verdict::Illegal { place: lines + 1 }
    }
}

// The verdict on a text, by a new floor and a new till.
#[tactic(auto, unfolding(crate::specs::Verdicts::verdict))]
fn judged(
    setting: &Setting,
    mut floor: Floor,
    mut till: OneTill,
    mut moves: MoveList,
    text: &[u8],
) -> Verdict
    requires at_work { AtWork setting.now.day floor (numbered till) }
    requires empty { floor.journal.history ≡ [] }
    requires moves { moves ≡ record { moves = []; room = MAX_MOVES } }
    ensures { result ≡ verdict setting.now.day text.now }
{
    let (lines, ended, rest) = follow(setting, &mut floor, &mut till, &mut moves, text);
    drop(floor.into_journal());
    verdict_on(lines, ended, rest)
}

/// The verdict on a text: legal exactly where it is that of a complete legal journal of the day and nothing else. Memory is
/// the only thing that may be wanting, and nothing after floor, till and list are opened asks for any.
pub fn replay(alloc: Global, setting: &Setting, text: &[u8]) -> Result<Verdict, Memory>
    ensures verdict { IfOk result (λ v. v ≡ verdict setting.now.day text.now) }
    ensures holds { IfOk result (λ v. Holds setting.now.day text.now v) }
{
    let till = OneTill::open(alloc, &setting.book)?;
    let moves = MoveList::with_room(alloc, MAX_MOVES)?;
    match Floor::open(alloc, setting) {
        Ok(floor) => Ok(judged(setting, floor, till, moves, text)),
        Err(memory) => Err(memory),
    }
}

/// On each text there is one verdict that holds, the computed one.
pub fn one_verdict_each()
    ensures holds { VerdictsHold }
    ensures no_other { NoOtherHolds }
{}

/// The text of each complete legal journal of a sound day is answered Legal with the number of its lines, in whatever order they
/// were made; so is that of the journal of the written order.
pub fn whole_journals_are_legal()
    ensures any_order { WholeJournalsAreLegal }
    ensures written_order { SettledDaysAreLegal }
{}
