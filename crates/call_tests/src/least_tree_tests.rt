use cash_amounts::Memory;
use least_tree::LeastTree;

// The list with these amounts at these places, of which those from the end on are left out.
fn tree_of(rt: &HostRuntime, places: u16, amounts: &[(usize, u64)]) -> Result<LeastTree, Memory> {
    let mut tree = LeastTree::with_room(rt.alloc(), usize::from(places))?;
    for (i, amount) in amounts {
        if *i < tree.places() {
            tree.put(*i, *amount);
        }
    }
    Ok(tree)
}

#[test]
fn first_places(rt: HostRuntime) {
    let all = [(0, 50), (2, 30), (3, 0), (6, 10), (99, u64::MAX)];
    for (places, from, most, want) in [
        (0, 0, u64::MAX, None),
        (3, 0, 49, Some(2)),
        (7, 3, 10, Some(3)),
        (7, 4, 9, None),
        (100, 7, u64::MAX, Some(99)),
        (100, usize::MAX, u64::MAX, None),
    ] {
        let tree = tree_of(&rt, places, &all).ok().expect(&rt, "memory");
        assert_eq!(rt;
            tree.first(from, most),
            want,
            "of {places} from {from}, at most {most}"
        );
    }
}

#[test]
fn amounts_come_and_go(rt: HostRuntime) {
    let mut tree = tree_of(&rt, 5, &[(1, 70), (4, 20)])
        .ok()
        .expect(&rt, "memory");
    assert_eq!(rt; tree.places(), 5);
    assert!(rt; 4 < tree.places());
    assert_eq!(rt; tree.get(0), None);
    assert_eq!(rt; tree.get(4), Some(20));
    tree.put(4, 90);
    assert_eq!(rt; tree.first(0, 80), Some(1));
    tree.take(1);
    assert_eq!(rt; tree.get(1), None);
    assert_eq!(rt; tree.first(0, 80), None);
    assert_eq!(rt; tree.first(0, 90), Some(4));
}
