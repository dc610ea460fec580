//! The lines at the front of a text, followed with all that they tell.
ghost use Rattle.std.specs.Prelude.{◌≡◌, ◌+◌, ◌≤◌, ◌∷◌, [], Some, length, map, IfOk, IsSome};
ghost use Rattle.commit_journal.specs.Line.{History, Line};
ghost use Rattle.cash_amounts.specs.Numbers.{numbered};
ghost use Rattle.day_facts.specs.Facts.{StandsFor};
ghost use Rattle.pending_items.specs.Kept.{KeepsPending};
ghost use Rattle.settle_floor.specs.Floors.{AtWork};
ghost use Rattle.journal_replay.specs.Verdicts.{longest, next_line};
ghost use Rattle.day_reasons.specs.Desks.{clear};
ghost use Rattle.day_reasons.specs.Told.{messages_text};
ghost use Rattle.day_reasons.specs.Works.{IsAlong, IsBefore, IsWork, lines_of};
ghost use Rattle.outside_io.specs.Calls.{Puts};

use crate::desk::LinesDesk;
use crate::telling::put_messages;
use account_book::OneTill;
use cash_amounts::Memory;
use commit_journal::{Head, MAX_MOVES, MoveList};
use day_facts::DayFacts;
use journal_replay::follow_line;
use outside_io::{Sink, WriteFault};
use pending_items::PendingItems;
use rule_book::Setting;
use settle_floor::Floor;
use std::alloc::Global;

// The head of the newest line.
fn newest_head(floor: &Floor) -> Head
    requires { 1 ≤ length floor.now.journal.history }
    ensures { (l : Line) (J : History) → floor.now.journal.history ≡ l ∷ J → result ≡ l.head }
{
    let journal = floor.journal();
    let (head, _) = journal.line(journal.len());
    head
}

fn desk_of<'a>(
    setting: &'a Setting,
    floor: &'a Floor,
    till: &'a OneTill,
    facts: &'a DayFacts,
    pending: &'a PendingItems,
) -> LinesDesk<'a>
    requires at_work { AtWork setting.now.day floor.now (numbered till.now) }
    requires facts { StandsFor setting.now.day floor.now.journal.history facts.now }
    requires pending { KeepsPending setting.now.day floor.now.journal.history pending.now }
    ensures setting { result.setting.now ≡ setting.now }
    ensures journal { result.journal.now ≡ floor.now.journal }
{
    LinesDesk {
        setting,
        journal: floor.journal(),
        facts,
        pending,
        till,
    }
}

// Two at a time, as each failure drops what was made before it.
fn till_and_moves(alloc: Global, setting: &Setting) -> Result<(OneTill, MoveList), Memory>
    ensures till { IfOk result (λ r. r.0 ≡ map (λ a. a.opening) setting.now.book.accounts) }
    ensures moves { IfOk result (λ r. r.1 ≡ clear) }
{
    let till = OneTill::open(alloc, &setting.book)?;
    match MoveList::with_room(alloc, MAX_MOVES) {
        Ok(moves) => Ok((till, moves)),
        Err(e) => {
            drop(till);
            Err(e)
        }
    }
}

fn facts_and_pending(alloc: Global, setting: &Setting) -> Result<(DayFacts, PendingItems), Memory>
    ensures facts { IfOk result (λ r. StandsFor setting.now.day [] r.0) }
    ensures pending { IfOk result (λ r. KeepsPending setting.now.day [] r.1) }
{
    let facts = DayFacts::with_room(alloc, setting)?;
    match PendingItems::with_room(alloc, setting) {
        Ok(pending) => Ok((facts, pending)),
        Err(e) => {
            drop(facts);
            Err(e)
        }
    }
}

/// The lines so far on a floor, what every account holds, what the lines tell, and which items they leave pending; and an empty list for the
/// moves of a line. `IsWork` says that all of it is that of the lines of the floor.
#[derive(Drop)]
pub struct Work {
    pub floor: Floor,
    pub till: OneTill,
    pub moves: MoveList,
    pub facts: DayFacts,
    pub pending: PendingItems,
}

impl Work {
    /// No lines. All memory that is needed is taken here.
    pub fn open(alloc: Global, setting: &Setting) -> Result<Work, Memory>
        ensures work { IfOk result (λ work. IsWork setting.now.day work) }
        ensures empty { IfOk result (λ work. lines_of work ≡ []) }
    {
        let (till, moves) = till_and_moves(alloc, setting)?;
        let (facts, pending) = facts_and_pending(alloc, setting)?;
        match Floor::open(alloc, setting) {
            Ok(floor) => Ok(Work {
                floor,
                till,
                moves,
                facts,
                pending,
            }),
            Err(e) => {
                drop(till);
                drop(moves);
                drop(facts);
                drop(pending);
                Err(e)
            }
        }
    }

    // Notes the newest line.
    fn note(&mut self, setting: &Setting)
        requires at_work { AtWork setting.now.day self.old.floor (numbered self.old.till) }
        requires moves { self.old.moves ≡ clear }
        requires before { IsBefore setting.now.day self.old }
        ensures work { IsWork setting.now.day self.new }
        ensures floor { self.new.floor ≡ self.old.floor }
    {
        let head = newest_head(&self.floor);
        self.facts.note(setting, head);
        self.pending.note(setting, &self.facts, head);
    }

    // Follows the next line, which is known to be there. What stands after it is the answer.
    fn follow<'a>(&mut self, setting: &Setting, text: &'a [u8]) -> &'a [u8]
        requires work { IsWork setting.now.day self.old }
        requires there { IsSome (next_line setting.now.day (lines_of self.old) text.now) }
        ensures next { (l : Line) × (next_line setting.now.day (lines_of self.old) text.now
            ≡ Some (l, result.now)) × (lines_of self.new ≡ l ∷ lines_of self.old) }
        ensures work { IsWork setting.now.day self.new }
    {
        match follow_line(
            setting,
            &mut self.floor,
            &mut self.till,
            &mut self.moves,
            text,
        ) {
            Some((_, rest)) => {
                self.note(setting);
                rest
            }
            None => unreachable!(),
        }
    }

    /// Follows so many lines more of the longest legal journal with whose text the whole text begins. What is left of the text is the
    /// answer. Takes no memory.
    pub fn go_on<'a>(
        &mut self,
        setting: &Setting,
        whole: &[u8],
        left: &'a [u8],
        count: u32,
    ) -> &'a [u8]
        requires along { IsAlong setting.now.day whole.now self.old left.now }
        requires more { length (lines_of self.old) + count
            ≤ length (longest setting.now.day whole.now).0 }
        ensures along { IsAlong setting.now.day whole.now self.new result.now }
        ensures lines { length (lines_of self.new) ≡ length (lines_of self.old) + count }
    {
        let mut rest = left;
        for _read in 0..count {
            rest = self.follow(setting, rest);
        }
        rest
    }

    /// Writes what is told of the messages after the lines so far.
    pub fn put_told<S: Sink>(&mut self, setting: &Setting, sink: &mut S) -> Result<(), WriteFault>
        requires { IsWork setting.now.day self.old }
        ensures put { Puts (S.state sink.old) (S.state sink.new)
            (messages_text setting.now.day (lines_of self.old)) result }
        ensures work { IsWork setting.now.day self.new }
        ensures lines { lines_of self.new ≡ lines_of self.old }
    {
        let desk = desk_of(setting, &self.floor, &self.till, &self.facts, &self.pending);
        put_messages(&desk, &mut self.moves, sink)
    }

    /// The desk over the lines so far.
    pub fn desk<'a>(&'a self, setting: &'a Setting) -> LinesDesk<'a>
        requires { IsWork setting.now.day self.now }
        ensures setting { result.setting.now ≡ setting.now }
        ensures journal { result.journal.now ≡ self.now.floor.journal }
    {
        desk_of(setting, &self.floor, &self.till, &self.facts, &self.pending)
    }
}
