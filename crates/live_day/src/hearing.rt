//! A record is heard into a setting: with what comes to its day, what is found out about it grows.
ghost use Rattle.std.specs.Prelude.{◌≡◌, ◌∷◌, ◌++◌, ◌||◌, [], None, false, true};
ghost use Rattle.batch_records.specs.Made.{is_entry, is_late};
ghost use Rattle.batch_records.specs.Records.{Fields};
ghost use Rattle.record_rows.specs.Rows.{kept_row};
ghost use Rattle.live_records.specs.Ears.{Fits, GrowsBy, IsHeard, IsTold, ends_run};
ghost use Rattle.live_records.specs.Heard.{Heard, Takes, hear, taken};
ghost use Rattle.live_day.specs.Hearing.{HasRoomLeft, MayCome, takes};

use live_records::{Ear, Outcome};
use record_rows::Row;
use rule_book::{Setting, take_last};

// Whether a message is taken.
fn takes(said: &Outcome) -> bool
    ensures { result ≡ takes said.now }
{
    matches!(said, Outcome::Takes)
}

/// Hears a record after the setup into a setting: what it calls for, whose message or stop the setting has then. Until the day has
/// begun, the record is one of a message, or a stop. A batch that is open has to be ended (`end_into`) before a record that is no entry.
/// Takes no memory.
pub(crate) fn hear_into(setting: &mut Setting, ear: &mut Ear, row: &Row) -> Outcome
    requires comes { MayCome row.now ear.old setting.old.day }
    requires fits { Fits ear.old setting.old.day }
    requires late { (ear.old.begun || is_late row.now) ≡ true }
    requires shut { is_entry row.now ≡ false → ear.old.coming.batch ≡ None }
    requires room { HasRoomLeft setting.old.day setting.old.found setting.old.tables }
    ensures told { (h : Heard) (r : Fields) → row.now ≡ kept_row r
        → IsHeard h ear.old setting.old.day → IsTold h r result ear.new setting.new.day }
    ensures day { GrowsBy result setting.old.day setting.new.day }
    ensures begun { ends_run result ≡ false → ear.new.begun ≡ true }
    ensures goes { ear.old.begun ≡ true → ends_run result ≡ false }
    ensures fits { Fits ear.new setting.new.day }
    ensures room { HasRoomLeft setting.new.day setting.new.found setting.new.tables }
{
    let said = ear.hear(row, &mut setting.day);
    if !takes(&said) {
        return said;
    }
    take_last(
        &setting.day,
        &setting.book,
        &mut setting.found,
        &mut setting.tables,
    );
    said
}

/// Ends the open batch in front of a record that is no entry: the setting has it then as its last message, which is to be taken before
/// that record is heard. True where that is so; else all stays. Takes no memory.
pub(crate) fn end_into(setting: &mut Setting, ear: &mut Ear, row: &Row) -> bool
    requires comes { MayCome row.now ear.old setting.old.day }
    requires fits { Fits ear.old setting.old.day }
    requires room { HasRoomLeft setting.old.day setting.old.found setting.old.tables }
    ensures ended { (h : Heard) (r : Fields) → row.now ≡ kept_row r
        → IsHeard h ear.old setting.old.day → result ≡ true
        → IsHeard (taken h) ear.new setting.new.day
        × ((taken h).calls ≡ h.calls ++ Takes ∷ [])
        × (hear h r ≡ hear (taken h) r) }
    ensures day { result ≡ true → GrowsBy Outcome.Takes setting.old.day setting.new.day }
    ensures stays { result ≡ false → (ear.new ≡ ear.old)
        × (setting.new.day ≡ setting.old.day)
        × (setting.new.found ≡ setting.old.found)
        × (setting.new.tables ≡ setting.old.tables) }
    ensures shut { is_entry row.now ≡ false → ear.new.coming.batch ≡ None }
    ensures begun { ear.new.begun ≡ ear.old.begun }
    ensures fits { Fits ear.new setting.new.day }
    ensures room { HasRoomLeft setting.new.day setting.new.found setting.new.tables }
{
    if !ear.end_batch(row, &mut setting.day) {
        return false;
    }
    take_last(
        &setting.day,
        &setting.book,
        &mut setting.found,
        &mut setting.tables,
    );
    true
}
