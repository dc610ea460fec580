ghost use Rattle.std.specs.Prelude.{◌≡◌, ◌<◌, true};
ghost use Rattle.batch_records.specs.Sound.{is_sound};

use account_book::{Book, BookRoom, Holdings, OneTill, Till, TillRoom};
use batch_records::{Day, read_day};
use cash_amounts::{AccountKind, Cents, MAX_CENTS, Name, Procedure};
use std::alloc::Global;
use std::process::Abort;
use std::test::Fail;

fn name(rt: &impl Abort, text: &[u8]) -> Name {
    Name::read(text).expect(rt, "a name")
}

fn book_of(rt: &impl Abort, alloc: Global, day: &Day) -> Book
    requires { is_sound day.now ≡ true }
{
    Book::build(alloc, day.accounts(), day.systems())
        .ok()
        .expect(rt, "memory")
}

// The book of the setup of a day.
fn built(rt: &impl Abort, alloc: Global, input: &[u8]) -> Book {
    let (day, _) = read_day(alloc, input).ok().expect(rt, "a day");
    book_of(rt, alloc, &day)
}

// Whether the account of a number has this name, kind, owner, opening and link.
fn is_told(
    book: &Book,
    a: u32,
    text: &[u8],
    kind: AccountKind,
    owner: &[u8],
    opening: u64,
    linked: Option<u32>,
) -> bool {
    match Name::read(text) {
        Some(text) if book.find(&text) == Some(a) => {
            *book.name(a) == text
                && book.kind(a) == kind
                && book.owner(a).as_bytes() == owner
                && book.opening(a).get() == opening
                && book.linked(a) == linked
        }
        _ => false,
    }
}

// Two systems, of which each lacks something, and a bank with two accounts.
const TWO_SYSTEMS: &[u8] =
    b"DAY;2025-06-02\nAS;CH1;AC\nAS;CH2;CE\nACC;X2;DCA;BANKA;;0.05\nACC;X1;DCA;BANKA;;0.07\nACC;SX;SUB;BANKA;CH2;0.00\nACC;TA;TEC;CH1;A;0.00\nACC;GF;FND;CH2;;0.09\nEND\n";

fn tells_accounts(rt: &impl Abort, book: &Book) -> bool {
    book.count() == 5
        && is_told(book, 2, b"X1", AccountKind::Dca, b"BANKA", 7, None)
        && is_told(book, 3, b"SX", AccountKind::Sub, b"BANKA", 0, Some(2))
        && book.find(&name(rt, b"BANKA")).is_none()
}

fn tells_first_accounts(rt: &impl Abort, book: &Book) -> bool {
    book.first_dca(&name(rt, b"BANKA")) == Some(1)
        && book.first_dca(&name(rt, b"CH1")).is_none()
        && book.system(&name(rt, b"X1")).is_none()
}

// CH1 has an account for A, none for C, and no fund.
fn tells_first_system(rt: &impl Abort, book: &Book) -> bool {
    match book.system(&name(rt, b"CH1")) {
        Some(one) => {
            one == 1
                && book.fund(one).is_none()
                && book.technical(one, Procedure::A) == Some(4)
                && book.technical(one, Procedure::C).is_none()
                && book.uses(one, Procedure::A)
                && !book.uses(one, Procedure::C)
        }
        None => false,
    }
}

// CH2 has a fund, and E needs no account.
fn tells_second_system(rt: &impl Abort, book: &Book) -> bool {
    match book.system(&name(rt, b"CH2")) {
        Some(two) => two == 2 && book.fund(two) == Some(5) && book.uses(two, Procedure::E),
        None => false,
    }
}

#[test]
fn answers_of_a_setup(rt: HostRuntime) -> Result<(), Fail> {
    let book = built(&rt, rt.alloc(), TWO_SYSTEMS);
    let accounts = tells_accounts(&rt, &book);
    let first_accounts = tells_first_accounts(&rt, &book);
    let first_system = tells_first_system(&rt, &book);
    let second_system = tells_second_system(&rt, &book);
    drop(book);
    assert!(rt; accounts);
    assert!(rt; first_accounts);
    assert!(rt; first_system);
    assert!(rt; second_system);
    Ok(())
}

// The book of a day of few records, in room for more.
fn roomy(rt: &impl Abort, alloc: Global, day: &Day) -> Book
    requires { is_sound day.now ≡ true }
{
    if 9 < day.accounts().len() {
        panic!(rt; "many accounts");
    }
    if 3 < day.systems().len() {
        panic!(rt; "many systems");
    }
    let room = match BookRoom::take(alloc, 9, 3) {
        Ok(room) => room,
        Err(_) => panic!(rt; "memory"),
    };
    Book::in_room(room, day.accounts(), day.systems())
}

// The same with its till, in room for as many.
fn roomy_till(rt: &impl Abort, alloc: Global, book: &Book) -> OneTill {
    if 9 < book.count() {
        panic!(rt; "many accounts");
    }
    let room = match TillRoom::take(alloc, 9) {
        Ok(room) => room,
        Err(_) => panic!(rt; "memory"),
    };
    OneTill::in_room(room, book)
}

fn is_told_in_room(rt: &impl Abort, alloc: Global) -> bool {
    let (day, _) = read_day(alloc, TWO_SYSTEMS).ok().expect(rt, "a day");
    let book = roomy(rt, alloc, &day);
    let till = roomy_till(rt, alloc, &book);
    let accounts = tells_accounts(rt, &book);
    let first_accounts = tells_first_accounts(rt, &book);
    let first_system = tells_first_system(rt, &book);
    let second_system = tells_second_system(rt, &book);
    check_balances(rt, &till, &[5, 7, 0, 0, 9]);
    accounts && first_accounts && first_system && second_system
}

#[test]
fn answers_in_room(rt: HostRuntime) {
    assert!(rt; is_told_in_room(&rt, rt.alloc()));
}

// Moves an amount where a transfer may.
fn moved(till: &mut impl Till, debit: u32, credit: u32, amount: Cents) -> bool {
    if debit == credit || !till.has(debit) || !till.has(credit) {
        return false;
    }
    let after = till.balance(credit).get() + amount.get();
    if till.balance(debit) < amount || after > MAX_CENTS {
        return false;
    }
    till.transfer(debit, credit, amount);
    true
}

fn check_balances(rt: &impl Abort, till: &impl Holdings, held: &[u64]) {
    let mut a = 0u32;
    for balance in held {
        a = a.saturating_add(1);
        assert!(rt; till.has(a));
        assert_eq!(rt; till.balance(a).get(), *balance);
    }
    assert!(rt; !till.has(a.saturating_add(1)));
}

const THREE_BANKS: &[u8] =
    b"DAY;2025-06-02\nACC;X1;DCA;BANKA;;1.00\nACC;Y1;DCA;BANKB;;0.00\nACC;Z1;DCA;BANKC;;0.40\nEND\n";

// From, to, how much, whether it moves, and what is held afterwards.
const MOVES: [(u32, u32, u64, bool, &[u64]); 6] = [
    (1, 2, 60, true, &[40, 60, 40]),
    (1, 2, 41, false, &[40, 60, 40]),
    (1, 3, 40, true, &[0, 60, 80]),
    (3, 1, 0, true, &[0, 60, 80]),
    (2, 4, 1, false, &[0, 60, 80]),
    (0, 1, 0, false, &[0, 60, 80]),
];

#[test]
fn transfers(rt: HostRuntime) -> Result<(), Fail> {
    let book = built(&rt, rt.alloc(), THREE_BANKS);
    let mut till = OneTill::open(rt.alloc(), &book).ok().expect(&rt, "memory");
    check_balances(&rt, &till, &[100, 0, 40]);
    for (debit, credit, amount, moves, held) in MOVES {
        let amount = Cents::of(amount).expect(&rt, "an amount");
        assert_eq!(rt; moved(&mut till, debit, credit, amount), moves);
        check_balances(&rt, &till, held);
    }
    Ok(())
}
