//! What is told of the place at which a journal goes wrong.
ghost use Rattle.std.specs.Prelude.{◌≡◌, ◌≤◌, ◌∷◌, ◌++◌, [], length, suc, codes};
ghost use Rattle.outside_io.specs.Calls.{Puts};
ghost use Rattle.outside_io.specs.TextLine.{text_line};
ghost use Rattle.commit_journal.specs.Line.{History, Line};
ghost use Rattle.commit_journal.specs.Text.{line_text};
ghost use Rattle.machine.specs.Making.Reasons.{why_of};
ghost use Rattle.machine.specs.Legal.{want_as};
ghost use Rattle.day_reasons.specs.Desks.{clear};
ghost use Rattle.day_reasons.specs.Reasons.{reason_fields};
ghost use Rattle.day_reasons.specs.Works.{IsWork, lines_of};
ghost use Rattle.day_reasons.specs.Wrong.{head_at, want_at, wrong_text, wrong_want};

use crate::telling::{needed_for, put_reason};
use crate::texts::wrong_head;
use crate::work::Work;
use cash_amounts::LinePlace;
use commit_journal::{Head, Kind, MoveList, Want, put_line, read_line};
use journal_replay::highest_message;
use outside_io::{Sink, WriteFault, put_fields};
use rule_book::{Setting, Why};

// The want that a line with this head answers.
fn want_of(head: Head) -> Want
    ensures { result ≡ want_as head.kind head.msg head.entry }
{
    match head.kind {
        Kind::In => Want::In { msg: head.msg },
        Kind::Book => Want::Book {
            msg: head.msg,
            entry: head.entry,
        },
        Kind::All => Want::All { msg: head.msg },
        Kind::Time => Want::Time,
        Kind::Expire => Want::Expire { msg: head.msg },
        Kind::Ask => Want::Ask { msg: head.msg },
        Kind::Cover => Want::Cover { msg: head.msg },
        Kind::Refuse => Want::Refuse { msg: head.msg },
        Kind::Sweep => Want::Sweep {
            account: head.entry,
        },
        Kind::End => Want::End,
    }
}

fn put_word<S: Sink>(place: LinePlace, word: &[u8], sink: &mut S) -> Result<(), WriteFault>
    ensures { Puts (S.state sink.old) (S.state sink.new)
        (text_line (head_at place ∷ word.now ∷ [])) result }
{
    let head = wrong_head(place);
    let fields: [&[u8]; 2] = [head.as_bytes(), word];
    put_fields(sink, &fields)
}

// That the machine makes another line, and that line, which is the newest of the floor.
fn put_other<S: Sink>(work: &Work, place: LinePlace, sink: &mut S) -> Result<(), WriteFault>
    requires from { 1 ≤ place }
    requires at { place ≡ length (lines_of work.now) }
    ensures { (l : Line) (J : History) → lines_of work.now ≡ l ∷ J
        → Puts (S.state sink.old) (S.state sink.new)
        (text_line (head_at place ∷ codes "OTHER" ∷ []) ++ line_text place l) result }
{
    let (head, moves) = work.floor.journal().line(place);
    put_word(place, b"OTHER", sink)?;
    put_line(place, head, moves, sink)
}

// Why there is no line of a want.
fn put_why<S: Sink>(
    work: &Work,
    setting: &Setting,
    place: LinePlace,
    want: Want,
    why: Why,
    sink: &mut S,
) -> Result<(), WriteFault>
    requires work { IsWork setting.now.day work.now }
    ensures { Puts (S.state sink.old) (S.state sink.new)
        (text_line (head_at place ∷ reason_fields setting.now.day (lines_of work.now) want why))
        result }
{
    let needed = needed_for(&work.desk(setting), want, &why);
    let head = wrong_head(place);
    put_reason(setting, head.as_bytes(), needed, why, sink)
}

// Of a want of which the text has a line that isn't the machine's.
fn put_want<S: Sink>(
    work: &mut Work,
    setting: &Setting,
    place: LinePlace,
    want: Want,
    sink: &mut S,
) -> Result<(), WriteFault>
    requires work { IsWork setting.now.day work.old }
    requires place { place ≡ suc (length (lines_of work.old)) }
    ensures { Puts (S.state sink.old) (S.state sink.new)
        (wrong_want setting.now.day (lines_of work.old) want
        (why_of setting.now.day (lines_of work.old) want)) result }
{
    match work.floor.answer(setting, &mut work.till, want) {
        Ok(_) => put_other(work, place, sink),
        Err(why) => put_why(work, setting, place, want, why, sink),
    }
}

// The want of the line with which bytes begin. The list of moves is empty before and after.
fn want_there(
    setting: &Setting,
    place: LinePlace,
    bytes: &[u8],
    moves: &mut MoveList,
) -> Option<Want>
    requires { moves.old ≡ clear }
    ensures want { result ≡ want_at setting.now.day place bytes.now }
    ensures moves { moves.new ≡ clear }
{
    match read_line(bytes, place, highest_message(setting), moves) {
        Ok((head, _)) => {
            moves.clear();
            Some(want_of(head))
        }
        Err(_) => None,
    }
}

/// Writes what is wrong at the place behind the lines so far, where these bytes stand: that they are no line, why the machine makes no
/// line of the want that they name, or which line it makes instead. The lines are of no more use then.
#[tactic(auto, unfolding(crate::specs::Wrong::wrong_text))]
pub fn put_wrong<S: Sink>(
    work: &mut Work,
    setting: &Setting,
    behind: &[u8],
    sink: &mut S,
) -> Result<(), WriteFault>
    requires work { IsWork setting.now.day work.old }
    ensures { Puts (S.state sink.old) (S.state sink.new)
        (wrong_text setting.now.day (lines_of work.old) behind.now) result }
{
    work.floor.renew(setting, &work.till);
    let place = work.floor.journal().len() + 1;
    match want_there(setting, place, behind, &mut work.moves) {
        Some(want) => put_want(work, setting, place, want, sink),
        None => put_word(place, b"TEXT", sink),
    }
}
