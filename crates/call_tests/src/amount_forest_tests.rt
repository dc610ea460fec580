use amount_forest::AmountForest;
use cash_amounts::Memory;

// Three lists, to which these amounts are pushed, each with ten times the amount for its number.
fn forest_of(rt: &HostRuntime, amounts: &[(u32, u32)]) -> Result<AmountForest, Memory> {
    let mut forest = AmountForest::with_room(rt.alloc(), 3, 200)?;
    for (list, amount) in amounts {
        if *list < forest.lists() && forest.spare() > 0 {
            forest.push(*list, *amount % 1000 * 10, Some(u64::from(*amount)));
        }
    }
    Ok(forest)
}

// Two lists by turns: the amounts of the first are 100 less the place, those of the second the place.
fn by_turns(rt: &HostRuntime) -> Result<AmountForest, Memory> {
    let mut forest = forest_of(rt, &[])?;
    for place in 0..100 {
        for (list, amount) in [(0, 100 - place), (1, place)] {
            if list < forest.lists() && forest.spare() > 0 {
                forest.push(list, 0, Some(amount));
            }
        }
    }
    Ok(forest)
}

#[test]
fn first_places(rt: HostRuntime) {
    let forest = by_turns(&rt).ok().expect(&rt, "memory");
    for (list, from, most, want) in [
        (0, 0, 0, None),
        (0, 0, 1, Some(99)),
        (0, 0, 37, Some(63)),
        (0, 70, 37, Some(70)),
        (0, 100, 100, None),
        (1, 0, 0, Some(0)),
        (1, 1, 0, None),
        (1, 5, 5, Some(5)),
        (1, 99, u64::MAX, Some(99)),
        (2, 0, u64::MAX, None),
    ] {
        if list < forest.lists() {
            assert_eq!(rt;
                forest.first(list, from, most),
                want,
                "list {list} from {from}, at most {most}"
            );
        }
    }
}

#[test]
fn amounts_come_and_go(rt: HostRuntime) {
    let mut forest = forest_of(&rt, &[(0, 70), (1, 10), (0, 20), (0, 90)])
        .ok()
        .expect(&rt, "memory");
    assert_eq!(rt; forest.lists(), 3);
    assert_eq!(rt; forest.spare(), 196);
    assert!(rt; 0 < forest.lists());
    assert_eq!(rt; forest.len(0), 3);
    assert_eq!(rt; forest.get(0, 1), Some(20));
    assert_eq!(rt; forest.get(0, 3), None);
    assert_eq!(rt; forest.first(0, 0, 80), Some(0));
    assert!(rt; 1 < forest.len(0));
    forest.take(0, 1, 2);
    assert_eq!(rt; forest.get(0, 1), None);
    assert!(rt; 1 < forest.len(0));
    assert_eq!(rt; forest.number(0, 1), 200);
    assert_eq!(rt; forest.first(0, 0, 69), None);
    assert_eq!(rt; forest.first(0, 1, 90), Some(2));
}

// The order is a hint: with another one the same place is found.
#[test]
fn places_get_amounts_later(rt: HostRuntime) {
    let mut forest = AmountForest::with_room(rt.alloc(), 2, 10)
        .ok()
        .expect(&rt, "memory");
    for number in [3, 5, 8, 9, 20] {
        if 1 < forest.lists() && forest.spare() > 0 {
            forest.push(1, number, None);
        }
    }
    assert!(rt; 1 < forest.lists());
    assert_eq!(rt; forest.first(1, 0, u64::MAX), None);
    assert!(rt; 3 < forest.len(1));
    forest.put(1, 3, 3, 40);
    assert!(rt; 1 < forest.len(1));
    forest.put(1, 1, 4, 70);
    assert_eq!(rt; forest.get(1, 1), Some(70));
    assert_eq!(rt; forest.get(1, 3), Some(40));
    assert_eq!(rt; forest.first(1, 0, 69), Some(3));
    assert_eq!(rt; forest.first(1, 0, 70), Some(1));
    assert_eq!(rt; forest.first(1, 2, 70), Some(3));
}

#[test]
fn numbers_have_places(rt: HostRuntime) {
    let forest = forest_of(&rt, &[(0, 1), (0, 2), (1, 3), (0, 5), (0, 6), (0, 9)])
        .ok()
        .expect(&rt, "memory");
    for (list, number, want) in [
        (0, 0, 0),
        (0, 10, 0),
        (0, 11, 1),
        (0, 20, 1),
        (0, 50, 2),
        (0, 59, 3),
        (0, 60, 3),
        (0, 61, 4),
        (0, 90, 4),
        (0, 91, 5),
        (1, 30, 0),
        (1, 31, 1),
        (2, 7, 0),
    ] {
        if list < forest.lists() {
            assert_eq!(rt;
                forest.place(list, number),
                want,
                "list {list}, number {number}"
            );
        }
    }
}
