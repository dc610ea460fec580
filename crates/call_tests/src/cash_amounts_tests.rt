use cash_amounts::{Cents, MAX_CENTS, MsgId, Name, Words, put_cents, read_cents, sum};
use std::test::Fail;

// Texts, and their amounts in cents, or where they cease to be one.
const AMOUNTS: [(&str, Result<u64, usize>); 14] = [
    ("0.00", Ok(0)),
    ("0.01", Ok(1)),
    ("99999999999.99", Ok(9_999_999_999_999)),
    ("10000000000000000.00", Ok(MAX_CENTS)),
    ("01.00", Err(1)),
    ("1.0", Err(3)),
    ("", Err(0)),
    ("10000000000000000.01", Err(19)),
    ("10000000000000000.1", Err(18)),
    ("10000000000000001", Err(16)),
    ("1.000", Err(4)),
    ("-1.00", Err(0)),
    ("1,00", Err(1)),
    (".00", Err(0)),
];

// Whether it is the amount, which is written as it was read.
fn is_of(cents: Cents, text: &[u8], expected: u64) -> bool {
    cents.get() == expected && put_cents(cents).as_bytes() == text
}

fn is_amount(text: &[u8], expected: Result<u64, usize>) -> bool {
    match read_cents(text) {
        Ok(cents) => {
            match expected {
                Ok(expected) => is_of(cents, text, expected),
                Err(_) => false,
            }
        }
        Err(fault) => {
            match expected {
                Ok(_) => false,
                Err(at) => fault.at == at,
            }
        }
    }
}

#[test]
fn texts_of_amounts(rt: HostRuntime) {
    for (text, expected) in AMOUNTS {
        assert!(rt; is_amount(text.as_bytes(), expected));
    }
}

const LONGEST: &[u8] = b"ABCDEFGHIJKLMNOPQRSTUVWXYZ01234567";

// Texts, whether they are names, and whether they are identifications.
const NAMES: [(&[u8], bool, bool); 8] = [
    (b"BANKA", true, true),
    (b"", false, false),
    (b"x1", false, true),
    (b"P_1", false, false),
    (b"P-1", false, true),
    (LONGEST, true, true),
    (b"ABCDEFGHIJKLMNOPQRSTUVWXYZ012345678", false, true),
    (b"ABCDEFGHIJKLMNOPQRSTUVWXYZ0123456789", false, false),
];

// Whether a text is a name's, which is copied and written as it was read.
fn is_name(text: &[u8]) -> bool {
    match Name::read(text) {
        Some(name) => name.copy() == name && name.as_bytes() == text,
        None => false,
    }
}

fn is_id(text: &[u8]) -> bool {
    match MsgId::read(text) {
        Some(id) => id.copy() == id && id.as_bytes() == text,
        None => false,
    }
}

#[test]
fn names(rt: HostRuntime) {
    for (text, name, id) in NAMES {
        assert!(rt; is_name(text) == name && is_id(text) == id);
    }
}

fn cents_in(list: &[Cents]) -> Option<u64> {
    match sum(list) {
        Some(cents) => Some(cents.get()),
        None => None,
    }
}

#[test]
fn sums(rt: HostRuntime) {
    let half = Cents::of(MAX_CENTS / 2).expect(&rt, "an amount");
    let cent = Cents::of(1).expect(&rt, "an amount");
    assert!(rt; cents_in(&[half, half]) == Some(MAX_CENTS));
    assert!(rt; cents_in(&[half, half, cent]).is_none());
    assert!(rt; Cents::of(MAX_CENTS + 1).is_none());
}

#[test]
fn words_in_order(rt: HostRuntime) -> Result<(), Fail> {
    let mut words = Words::new(rt.alloc());
    words.push("settle").ok().expect(&rt, "memory");
    words.push("--workers").ok().expect(&rt, "memory");
    words.push("").ok().expect(&rt, "memory");
    assert_eq!(rt; words.len(), 3);
    assert_eq!(rt; words.word(0), "settle");
    assert_eq!(rt; words.word(1), "--workers");
    assert_eq!(rt; words.word(2), "");
    Ok(())
}
