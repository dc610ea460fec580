use growing_set::GrowingSet;

#[test]
fn numbers_come_in(rt: HostRuntime) {
    let mut set = GrowingSet::with_room(rt.alloc(), 5000)
        .ok()
        .expect(&rt, "memory");
    assert_eq!(rt; set.next(0), None, "no numbers");
    // So many numbers come in, with which the bound is this, and that is the room left; this number becomes a member, and then
    // that is the least one from 64 on.
    for (by, bound, room, n, next) in [
        (64, 64, 4936, 63, None),
        (0, 64, 4936, 0, None),
        (1, 65, 4935, 64, Some(64)),
        (4031, 4096, 904, 7, Some(64)),
        (904, 5000, 0, 4999, Some(64)),
    ] {
        assert!(rt; by <= set.room());
        set.grow(by);
        assert_eq!(rt; set.bound(), bound, "{by} came in");
        assert_eq!(rt; set.room(), room, "{by} came in");
        assert!(rt; n < set.bound());
        assert!(rt; !set.contains(n));
        set.insert(n);
        assert!(rt; n < set.bound());
        assert!(rt; set.contains(n));
        assert_eq!(rt; set.next(64), next, "{n} became a member");
    }
    assert_eq!(rt; set.next(65), Some(4999));
}

#[test]
fn members_of_a_growing_set_go(rt: HostRuntime) {
    let mut set = GrowingSet::with_room(rt.alloc(), 100)
        .ok()
        .expect(&rt, "memory");
    assert!(rt; 70 <= set.room());
    set.grow(70);
    for n in [7, 64, 69] {
        assert!(rt; n < set.bound());
        set.insert(n);
    }
    for (n, next) in [(7, Some(64)), (64, Some(69)), (69, None)] {
        assert!(rt; n < set.bound());
        assert!(rt; set.contains(n));
        set.remove(n);
        assert!(rt; n < set.bound());
        assert!(rt; !set.contains(n));
        assert_eq!(rt; set.next(0), next, "after {n} went");
    }
    assert!(rt; 30 <= set.room());
    set.grow(30);
    assert_eq!(rt; set.next(0), None, "what comes in is no member");
}
