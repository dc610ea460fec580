//! The journal that a text is of.
ghost use Rattle.std.specs.Prelude.{◌≡◌, ◌∷◌, [], Some, IfOk, IsSome, length};
ghost use Rattle.commit_journal.specs.declared.move_list.TheConstants.{MAX_MOVES};
ghost use Rattle.commit_journal.specs.Line.{Line};
ghost use Rattle.settlement_laws.specs.Fits.{Fits};
ghost use Rattle.journal_replay.specs.Verdicts.{longest, next_line};
ghost use Rattle.journal_reading.specs.Reading.{lines_in};

use cash_amounts::Memory;
use commit_journal::{Journal, MAX_MOVES, MoveList, read_line};
use journal_replay::{Verdict, highest_message, replay};
use rule_book::Setting;
use settle_floor::Floor;
use std::alloc::Global;

// With how many of the machine's lines a text begins, by the verdict on it.
fn lines_of(verdict: Verdict) -> u32
    ensures { result ≡ lines_in verdict }
{
    match verdict {
        Verdict::Legal { lines } => lines,
        Verdict::Illegal { place } => place.saturating_sub(1),
    }
}

// Reads the next line, which is known to be there, into the journal. What stands after it is the answer. The list of moves is
// empty again.
fn read_next<'a>(
    setting: &Setting,
    journal: &mut Journal,
    moves: &mut MoveList,
    text: &'a [u8],
) -> &'a [u8]
    requires fits { Fits setting.now.day journal.old }
    requires moves { moves.old ≡ record { moves = []; room = MAX_MOVES } }
    requires there { IsSome (next_line setting.now.day journal.old.history text.now) }
    ensures next { (l : Line) × (next_line setting.now.day journal.old.history text.now
        ≡ Some (l, result.now)) × (journal.new.history ≡ l ∷ journal.old.history) }
    ensures fits { Fits setting.now.day journal.new }
    ensures moves { moves.new ≡ record { moves = []; room = MAX_MOVES } }
{
    let place = journal.len() + 1;
    match read_line(text, place, highest_message(setting), moves) {
        Ok((head, length)) => {
            journal.push(head, moves.as_slice());
            moves.clear();
            &text[length..]
        }
        Err(_) => unreachable!(),
    }
}

// Reads so many lines into an empty journal, which are those that the machine makes. What stands after them is the answer.
fn read_lines<'a>(
    setting: &Setting,
    journal: &mut Journal,
    moves: &mut MoveList,
    text: &'a [u8],
    count: u32,
) -> &'a [u8]
    requires empty { journal.old.history ≡ [] }
    requires fits { Fits setting.now.day journal.old }
    requires moves { moves.old ≡ record { moves = []; room = MAX_MOVES } }
    requires count { count ≡ length (longest setting.now.day text.now).0 }
    ensures journal { journal.new.history ≡ (longest setting.now.day text.now).0 }
    ensures rest { result.now ≡ (longest setting.now.day text.now).1 }
{
    let mut rest = text;
    for _read in 0..count {
        rest = read_next(setting, journal, moves, rest);
    }
    rest
}

// The same, and the journal.
fn read_into<'a>(
    setting: &Setting,
    mut journal: Journal,
    mut moves: MoveList,
    text: &'a [u8],
    count: u32,
) -> (Journal, &'a [u8])
    requires empty { journal.history ≡ [] }
    requires fits { Fits setting.now.day journal }
    requires moves { moves ≡ record { moves = []; room = MAX_MOVES } }
    requires count { count ≡ length (longest setting.now.day text.now).0 }
    ensures journal { result.0.history ≡ (longest setting.now.day text.now).0 }
    ensures rest { result.1.now ≡ (longest setting.now.day text.now).1 }
{
    let rest = read_lines(setting, &mut journal, &mut moves, text, count);
    (journal, rest)
}

/// The longest journal of the machine's lines with whose text a text begins, and what stands after it. `replay` has a floor check
/// each line before any is read into the journal. `Memory` says that there wasn't enough of it.
pub fn read_journal<'a>(
    alloc: Global,
    setting: &Setting,
    text: &'a [u8],
) -> Result<(Journal, &'a [u8]), Memory>
    ensures journal { IfOk result (λ r. r.0.history ≡ (longest setting.now.day text.now).0) }
    ensures rest { IfOk result (λ r. r.1.now ≡ (longest setting.now.day text.now).1) }
{
    let count = lines_of(replay(alloc, setting, text)?);
    let moves = MoveList::with_room(alloc, MAX_MOVES)?;
    match Floor::open(alloc, setting) {
        Ok(floor) => Ok(read_into(setting, floor.into_journal(), moves, text, count)),
        Err(memory) => Err(memory),
    }
}
