//! Which accounts, messages and lines are on a party's page.
ghost use Rattle.std.specs.Prelude.{◌≡◌, ◌||◌, is_none};
ghost use Rattle.std.specs.List.{list_any};
ghost use Rattle.day_page.specs.Parties.{is_line_of, owns_account, owns_dca, sent, touches};

use crate::words::{Request, is_partys};
use cash_amounts::{AccountKind, AccountNumber, MessageNumber};
use commit_journal::{Head, Move};
use rule_book::Setting;
use rule_book::parts::{account, message};

/// Whether the party owns the account.
pub fn owns_account(setting: &Setting, request: &Request, a: AccountNumber) -> bool
    ensures { result ≡ owns_account setting.now.day request.now a }
{
    match account(&setting.day, a) {
        Some(record) => is_partys(request, &record.owner),
        None => false,
    }
}

/// Whether the party owns the account, and it is a dedicated cash account.
pub fn owns_dca(setting: &Setting, request: &Request, a: AccountNumber) -> bool
    ensures { result ≡ owns_dca setting.now.day request.now a }
{
    match account(&setting.day, a) {
        Some(record) => {
            matches!(record.kind, AccountKind::Dca) && is_partys(request, &record.owner)
        }
        None => false,
    }
}

/// Whether the party sent message n.
pub fn sent(setting: &Setting, request: &Request, n: MessageNumber) -> bool
    ensures { result ≡ sent setting.now.day request.now n }
{
    match message(&setting.day, n) {
        Some(message) => is_partys(request, &message.sender),
        None => false,
    }
}

pub fn touches(setting: &Setting, request: &Request, one: &Move) -> bool
    ensures { result ≡ touches setting.now.day request.now one.now }
{
    owns_account(setting, request, one.debit) || owns_account(setting, request, one.credit)
}

fn any_touches(setting: &Setting, request: &Request, moves: &[Move]) -> bool
    ensures { result ≡ list_any (touches setting.now.day request.now) moves.now }
{
    moves.iter().any(|one| touches(setting, request, one))
}

fn is_whole(request: &Request) -> bool
    ensures { result ≡ is_none request.now.party }
{
    request.party.is_none()
}

fn concerns(setting: &Setting, request: &Request, head: Head, moves: &[Move]) -> bool
    ensures { result ≡ (sent setting.now.day request.now head.msg
        || list_any (touches setting.now.day request.now) moves.now) }
{
    sent(setting, request, head.msg) || any_touches(setting, request, moves)
}

/// Whether a line is about a message of the party, or moves something on its accounts.
pub fn is_line_of(setting: &Setting, request: &Request, head: Head, moves: &[Move]) -> bool
    ensures { result ≡ is_line_of setting.now.day request.now
        (record { head = head; moves = moves.now }) }
{
    is_whole(request) || concerns(setting, request, head, moves)
}
