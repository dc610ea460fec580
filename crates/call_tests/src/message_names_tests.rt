use cash_amounts::{Memory, MsgId, Name};
use message_names::{FirstNames, MessageNames};
use std::process::Abort;

// Names of the greatest length, which differ in their last byte alone.
const LONG: &[u8] = b"ABCDEFGHIJKLMNOPQRSTUVWXYZ01234567";

const OTHER: &[u8] = b"ABCDEFGHIJKLMNOPQRSTUVWXYZ01234568";

// The same of identifications.
const LONG_ID: &[u8] = b"abcdefghijklmnopqrstuvwxyz-ABCDEFGH";

const OTHER_ID: &[u8] = b"abcdefghijklmnopqrstuvwxyz-ABCDEFGI";

fn name(rt: &impl Abort, text: &[u8]) -> Name {
    Name::read(text).expect(rt, "a name")
}

fn id(rt: &impl Abort, text: &[u8]) -> MsgId {
    MsgId::read(text).expect(rt, "an identification")
}

#[test]
fn repeats_are_found(rt: HostRuntime) {
    let mut names = match MessageNames::with_room(rt.alloc(), 6) {
        Ok(names) => names,
        Err(_) => panic!(rt; "memory"),
    };
    let long = name(&rt, LONG);
    let other = name(&rt, OTHER);
    let long_id = id(&rt, LONG_ID);
    let other_id = id(&rt, OTHER_ID);
    assert_eq!(rt; names.first(&long, &long_id), None);
    assert_eq!(rt; names.enter(&long, &long_id), None);
    assert_eq!(rt; names.enter(&other, &long_id), None);
    assert_eq!(rt; names.enter(&long, &other_id), None);
    assert_eq!(rt; names.enter(&other, &long_id), Some(1));
    assert_eq!(rt; names.enter(&long, &long_id), Some(0));
    assert_eq!(rt; names.enter(&long, &other_id), Some(2));
    assert_eq!(rt; names.len(), 6);
    assert_eq!(rt; names.first(&other, &long_id), Some(1));
    assert_eq!(rt; names.first(&other, &other_id), None);
}

// Six names of three senders: each leads to the last one before it of its sender.
#[test]
fn names_of_one_sender_lead_to_the_one_before(rt: HostRuntime) {
    let mut names = match MessageNames::with_room(rt.alloc(), 6) {
        Ok(names) => names,
        Err(_) => panic!(rt; "memory"),
    };
    let long = name(&rt, LONG);
    let other = name(&rt, OTHER);
    let short = name(&rt, b"A");
    let one = id(&rt, b"1");
    names.enter(&long, &one);
    names.enter(&other, &one);
    names.enter(&short, &one);
    names.enter(&long, &one);
    names.enter(&long, &one);
    names.enter(&other, &one);
    assert_eq!(rt; names.before(0), None);
    assert_eq!(rt; names.before(1), None);
    assert_eq!(rt; names.before(2), None);
    assert_eq!(rt; names.before(3), Some(0));
    assert_eq!(rt; names.before(4), Some(3));
    assert_eq!(rt; names.before(5), Some(1));
    assert_eq!(rt; names.before(6), None);
}

// One key is no name of the other kind, and no name is a front of another one.
#[test]
fn short_names_are_told_apart(rt: HostRuntime) {
    let mut names = match MessageNames::with_room(rt.alloc(), 3) {
        Ok(names) => names,
        Err(_) => panic!(rt; "memory"),
    };
    let eight = name(&rt, b"BANKOFAB");
    let nine = name(&rt, b"BANKOFABC");
    let one = id(&rt, b"1");
    assert_eq!(rt; names.enter(&nine, &one), None);
    assert_eq!(rt; names.enter(&eight, &one), None);
    assert_eq!(rt; names.enter(&eight, &id(&rt, b"11")), None);
    assert_eq!(rt; names.first(&eight, &one), Some(1));
    assert_eq!(rt; names.first(&name(&rt, b"BANKOFA"), &one), None);
}

#[test]
fn names_by_themselves_are_found(rt: HostRuntime) {
    let mut names = match FirstNames::with_room(rt.alloc(), 4) {
        Ok(names) => names,
        Err(_) => panic!(rt; "memory"),
    };
    let long = name(&rt, LONG);
    let other = name(&rt, OTHER);
    assert_eq!(rt; names.first(&long), None);
    names.enter(&long);
    names.enter(&other);
    names.enter(&long);
    assert_eq!(rt; names.first(&long), Some(0));
    assert_eq!(rt; names.first(&other), Some(1));
    assert_eq!(rt; names.first(&name(&rt, b"ABCDEFGH")), None);
}
