//! What the book of a sound day says of names: the accounts of entries, and those of systems.
ghost use Rattle.std.specs.Prelude.{◌≡◌, ◌≤◌, ◌<◌, true, length, IfSome, unwrap_or};
ghost use Rattle.account_book.specs.Directory.{find_account, system_name};
ghost use Rattle.batch_records.specs.Sound.{is_sound};
ghost use Rattle.machine.specs.Records.Setup.{fund, system_named, technical};
ghost use Rattle.rule_book.specs.Settings.{setup_of};

use account_book::Book;
use batch_records::Day;
use cash_amounts::{Name, Procedure};

// The number of the account of this name; 0 where it is no account's.
pub(crate) fn number_of(book: &Book, name: &Name) -> u32
    ensures { result ≡ unwrap_or (find_account book.now.accounts name.now) 0 }
{
    match book.find(name) {
        Some(a) => a,
        None => 0,
    }
}

// The number of the system of this name.
pub(crate) fn system_number(day: &Day, book: &Book, name: &[u8]) -> Option<u32>
    requires sound { is_sound day.now ≡ true }
    requires filed { book.now ≡ setup_of day.now }
    ensures number { result ≡ system_named day.now name.now }
    ensures name { IfSome result (λ s. system_name book.now.systems s ≡ name.now) }
    ensures within { IfSome result (λ s. (0 < s) × (s ≤ length book.now.systems)) }
{
    match Name::read(name) {
        Some(name) => book.system(&name),
        None => None,
    }
}

// The technical account of a system for a procedure.
pub(crate) fn technical(day: &Day, book: &Book, system: &[u8], procedure: Procedure) -> Option<u32>
    requires sound { is_sound day.now ≡ true }
    requires filed { book.now ≡ setup_of day.now }
    ensures { result ≡ technical day.now system.now procedure }
{
    match system_number(day, book, system) {
        Some(s) => book.technical(s, procedure),
        None => None,
    }
}

// The guarantee fund account of a system.
pub(crate) fn fund(day: &Day, book: &Book, system: &[u8]) -> Option<u32>
    requires sound { is_sound day.now ≡ true }
    requires filed { book.now ≡ setup_of day.now }
    ensures { result ≡ fund day.now system.now }
{
    match system_number(day, book, system) {
        Some(s) => book.fund(s),
        None => None,
    }
}
