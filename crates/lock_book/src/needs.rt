// Which groups of accounts a want needs.
ghost use Rattle.std.specs.Prelude.{◌≡◌, true, false, [], ◌∷◌, flat_map, if◌then◌else◌, option_to_list};
ghost use Rattle.machine.specs.Making.Accounts.{accounts_of, accounts_of_message, accounts_of_part, accounts_of_want, accounts_taken};
ghost use Rattle.machine.specs.Records.Messages.{entries, part, sort_of};
ghost use Rattle.machine.specs.Records.Setup.{first_dca, is_sub_account, owner};
ghost use Rattle.lock_book.specs.Needs.{above_zero, accounts_in, either, needs_of};
ghost use Rattle.lock_book.specs.Steps.{moves_time};

use batch_records::RecordBody;
use cash_amounts::Procedure;
use commit_journal::{Move, Want};
use rule_book::Setting;
use rule_book::batches::fund_of;
use rule_book::parts::{entry_moves, first_dca, is_sub_account, item_move, message, owner_of};

/// For each group whether it is needed.
#[derive(Clone, Copy)]
pub struct Needs {
    pub zero: bool,
    pub one: bool,
    pub two: bool,
    pub three: bool,
    pub four: bool,
    pub five: bool,
    pub six: bool,
    pub seven: bool,
}

fn none() -> Needs
    ensures { result ≡ needs_of [] }
{
    Needs {
        zero: false,
        one: false,
        two: false,
        three: false,
        four: false,
        five: false,
        six: false,
        seven: false,
    }
}

fn of_account(a: u32) -> Needs
    ensures { result ≡ needs_of (a ∷ []) }
{
    let number = a % 8;
    Needs {
        zero: number == 0,
        one: number == 1,
        two: number == 2,
        three: number == 3,
        four: number == 4,
        five: number == 5,
        six: number == 6,
        seven: number == 7,
    }
}

fn either(p: Needs, q: Needs) -> Needs
    ensures { result ≡ either p q }
{
    Needs {
        zero: p.zero || q.zero,
        one: p.one || q.one,
        two: p.two || q.two,
        three: p.three || q.three,
        four: p.four || q.four,
        five: p.five || q.five,
        six: p.six || q.six,
        seven: p.seven || q.seven,
    }
}

fn of_option(a: Option<u32>) -> Needs
    ensures { result ≡ needs_of (option_to_list a) }
{
    match a {
        Some(a) => of_account(a),
        None => none(),
    }
}

// Of an account, by its number; 0 is that of a name which is no account's.
fn of_number(a: u32) -> Needs
    ensures { result ≡ needs_of (above_zero a) }
{
    if a == 0 { none() } else { of_account(a) }
}

fn of_move(found: &Move) -> Needs
    ensures { result ≡ needs_of (accounts_in found.now) }
{
    either(of_number(found.debit), of_number(found.credit))
}

fn of_moves(moves: &[Move]) -> Needs
    ensures { result ≡ needs_of (flat_map accounts_in moves.now) }
{
    let mut needs = none();
    for found in moves {
        needs = either(needs, of_move(found));
    }
    needs
}

// Of the entries of a batch.
fn of_entries(setting: &Setting, n: u32) -> Needs
    ensures { result ≡ needs_of
        (flat_map (accounts_of setting.now.day) (entries setting.now.day n)) }
{
    of_moves(entry_moves(setting, n))
}

// Of entry k of a batch, or with 0 of the transfer that the message is.
fn of_part(setting: &Setting, n: u32, k: u32) -> Needs
    ensures { result ≡ needs_of (accounts_of_part setting.now.day (part setting.now.day n k)) }
{
    match item_move(setting, n, k) {
        Some(found) => of_move(&found),
        None => none(),
    }
}

// Of what an intake may move: a liquidity transfer, or the entries of a batch of D.
fn of_intake(setting: &Setting, n: u32) -> Needs
    ensures { result ≡ needs_of (accounts_taken (sort_of setting.now.day n) setting.now.day n) }
{
    match message(&setting.day, n) {
        Some(message) => match &message.body {
            RecordBody::Liquidity { .. } => of_part(setting, n, 0),
            RecordBody::Batch { procedure, .. } => match procedure {
                Procedure::D => of_entries(setting, n),
                _ => none(),
            },
            _ => none(),
        },
        None => none(),
    }
}

// Of a payment its accounts, of a batch those of its entries and the fund.
fn of_message(setting: &Setting, n: u32) -> Needs
    ensures { result ≡ needs_of (accounts_of_message setting.now.day n) }
{
    match message(&setting.day, n) {
        Some(message) => match &message.body {
            RecordBody::Batch { .. } => either(
                of_entries(setting, n),
                of_option(fund_of(setting, n)),
            ),
            RecordBody::Pay { .. } => of_part(setting, n, 0),
            _ => none(),
        },
        None => none(),
    }
}

// The first dedicated cash account of the owner of a sub-account.
fn target(setting: &Setting, a: u32) -> Option<u32>
    requires { is_sub_account setting.now.day a ≡ true }
    ensures { result ≡ first_dca setting.now.day (owner setting.now.day a) }
{
    match owner_of(setting, a) {
        Some(owner) => first_dca(setting, owner),
        None => None,
    }
}

// Of a sub-account itself and its target.
fn of_sweep(setting: &Setting, a: u32) -> Needs
    ensures { result ≡ needs_of
        (if is_sub_account setting.now.day a then a
        ∷ option_to_list (first_dca setting.now.day (owner setting.now.day a)) else []) }
{
    if is_sub_account(setting, a) {
        either(of_account(a), of_option(target(setting, a)))
    } else {
        none()
    }
}

/// The groups of the accounts that the line of a want may touch.
pub fn needed_by(setting: &Setting, want: Want) -> Needs
    requires { moves_time want ≡ false }
    ensures { result ≡ needs_of (accounts_of_want setting.now.day want) }
{
    match want {
        Want::In { msg } => of_intake(setting, msg),
        Want::Book { msg, entry } => of_part(setting, msg, entry),
        Want::All { msg } => of_message(setting, msg),
        Want::Expire { msg } => of_message(setting, msg),
        Want::Cover { msg } => of_message(setting, msg),
        Want::Refuse { msg } => of_message(setting, msg),
        Want::Ask { .. } => none(),
        Want::Sweep { account } => of_sweep(setting, account),
        Want::Time => none(),
        Want::End => none(),
    }
}

impl Needs {
    /// The groups of the accounts that the intakes of these messages may touch.
    pub fn of_intakes(setting: &Setting, messages: &[u32]) -> Needs
        ensures { result ≡ needs_of
            (flat_map (λ n. accounts_taken (sort_of setting.now.day n) setting.now.day n)
            messages.now) }
    {
        let mut needs = none();
        for n in messages {
            needs = either(needs, of_intake(setting, *n));
        }
        needs
    }

    /// The groups of the accounts that the items of these messages may touch: of a payment its two, of a batch those of its
    /// entries and the fund.
    pub fn of_items(setting: &Setting, messages: &[u32]) -> Needs
        ensures { result ≡ needs_of
            (flat_map (accounts_of_message setting.now.day) messages.now) }
    {
        let mut needs = none();
        for n in messages {
            needs = either(needs, of_message(setting, *n));
        }
        needs
    }
}
