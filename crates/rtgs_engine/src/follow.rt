//! The view of a party from the lines of a text.
ghost use Rattle.std.specs.Prelude.{◌≡◌, ◌<◌, ◌≤◌, ◌^◌, ◌∷◌, ℕ, List, [], true, length, IfOk};
ghost use Rattle.batch_records.specs.Sound.{is_sound};
ghost use Rattle.status_messages.specs.declared.status.Status.{Status};
ghost use Rattle.status_messages.specs.StatusGrammar.{most_told};
ghost use Rattle.as_client.specs.Knowing.{Knows};
ghost use Rattle.as_client.specs.Views.{addressed, text_lines};
ghost use Rattle.rtgs_engine.specs.Following.{KnowsSome, TakesAll, TakesLine};

use as_client::{BankView, ViewFault};
use batch_records::Day;
use cash_amounts::Name;
use commit_journal::fields::cut;
use status_messages::{Status, most_told, read_status};

// The first line of a text, and what stands after its end.
fn first_line(text: &[u8]) -> (&[u8], &[u8])
    requires { 0 < length text.now }
    ensures lines { text_lines text.now ≡ result.0.now ∷ text_lines result.1.now }
    ensures shorter { length result.1.now < length text.now }
{
    match cut(text, b'\n') {
        Some((line, after)) => (line, after),
        None => (text, &[]),
    }
}

// The status that a line is, where it is one of a message that a status of this day can have, and addressed to the party of the view.
fn addressed(view: &BankView, day: &Day, line: &[u8]) -> Option<Status>
    ensures { result ≡ addressed (most_told day.now.version) view.now.name line.now }
{
    let Some(status) = read_status(most_told(day.version()), line) else {
        return None;
    };
    if view.is_addressed(&status) {
        Some(status)
    } else {
        None
    }
}

// Takes the status that a line is, where it is one and addressed to the party: how many were taken.
fn take_line(view: &mut BankView, day: &Day, name: &Name, line: &[u8]) -> Result<u32, ViewFault>
    requires knows { KnowsSome day.now name.now view.old }
    ensures takes { (ss : List Status) → Knows day.now name.now ss view.old
        → TakesLine day.now name.now ss line.now view.new result }
    ensures few { IfOk result (λ more. more ≤ 1) }
{
    let _ = name;
    match addressed(view, day, line) {
        Some(status) => match view.take(&status) {
            Ok(()) => Ok(1),
            Err(fault) => Err(fault),
        },
        None => Ok(0),
    }
}

/// Takes all statuses among the lines of a text that are addressed to the party: how many were taken, or the number, from
/// 1, of the first line whose status the view refuses. Takes no memory.
pub fn take_text(view: &mut BankView, day: &Day, name: &Name, text: &[u8]) -> Result<u32, u32>
    requires fresh { Knows day.now name.now [] view.old }
    requires short { length text.now < 2 ^ 32 }
    ensures { TakesAll day.now name.now (text_lines text.now) view.new result }
{
    let mut left = text;
    let mut number = 0;
    let mut taken = 0;
    while !left.is_empty() {
        let (line, after) = first_line(left);
        left = after;
        number += 1;
        match take_line(view, day, name, line) {
            Ok(more) => taken += more,
            Err(_) => return Err(number),
        }
    }
    Ok(taken)
}
