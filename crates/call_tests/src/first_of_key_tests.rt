use cash_amounts::Memory;
use first_of_key::{FirstKeys, Key};
use std::cmp::Ordering;

const FIRST: Key = Key {
    words: [1, 0, 0, 0, 0, 7],
};

const LAST_BIT: Key = Key {
    words: [1, 0, 0, 0, 0, 6],
};

const FIRST_BIT: Key = Key {
    words: [1 << 63, 0, 0, 0, 0, 7],
};

#[test]
fn firsts_are_found(rt: HostRuntime) {
    let mut keys = match FirstKeys::with_room(rt.alloc(), 5) {
        Ok(keys) => keys,
        Err(_) => panic!(rt; "memory"),
    };
    assert_eq!(rt; keys.first(FIRST), None);
    assert_eq!(rt; keys.enter(FIRST), None);
    assert_eq!(rt; keys.enter(LAST_BIT), None);
    assert_eq!(rt; keys.enter(FIRST), Some(0));
    assert_eq!(rt; keys.enter(LAST_BIT), Some(1));
    assert_eq!(rt; keys.enter(FIRST), Some(0));
    assert_eq!(rt; keys.len(), 5);
    assert_eq!(rt; keys.first(LAST_BIT), Some(1));
    assert_eq!(rt; keys.first(FIRST_BIT), None);
    assert_eq!(rt; keys.key(3), Some(LAST_BIT));
    assert_eq!(rt; keys.key(5), None);
}

#[test]
fn keys_are_compared_word_by_word(rt: HostRuntime) {
    assert_eq!(rt; FIRST.compare(LAST_BIT), Ordering::Greater);
    assert_eq!(rt; FIRST.compare(FIRST_BIT), Ordering::Less);
    assert_eq!(rt; FIRST.compare(FIRST), Ordering::Equal);
}
