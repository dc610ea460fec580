use cash_amounts::Memory;
use number_set::NumberSet;

// The set of these numbers, of which those from the bound on are left out.
fn set_of(rt: &HostRuntime, bound: u32, numbers: &[u32]) -> Result<NumberSet, Memory> {
    let mut set = NumberSet::with_room(rt.alloc(), bound)?;
    for n in numbers {
        if *n < set.bound() {
            set.insert(*n);
        }
    }
    Ok(set)
}

#[test]
fn next_members(rt: HostRuntime) {
    let far = [0, 63, 64, 4095, 4096, 262_143, 262_144, 16_777_215];
    let last = u32::MAX - 1;
    for (bound, numbers, from, want) in [
        (0, &far[..0], 0, None),
        (1, &far[..1], 0, Some(0)),
        (1, &far[..1], 1, None),
        (64, &far[..2], 1, Some(63)),
        (64, &far[..], 64, None),
        (65, &far[..], 64, Some(64)),
        (65, &far[..], 65, None),
        (16_777_216, &far[..], 0, Some(0)),
        (16_777_216, &far[..], 1, Some(63)),
        (16_777_216, &far[..], 65, Some(4095)),
        (16_777_216, &far[..], 4096, Some(4096)),
        (16_777_216, &far[..], 4097, Some(262_143)),
        (16_777_216, &far[..], 262_145, Some(16_777_215)),
        (16_777_216, &far[..], 16_777_216, None),
        (16_777_216, &far[..], last, None),
    ] {
        let set = set_of(&rt, bound, numbers).ok().expect(&rt, "memory");
        assert_eq!(rt; set.next(from), want, "below {bound} from {from}");
    }
}

#[test]
fn members_come_and_go(rt: HostRuntime) {
    let mut set = set_of(&rt, 5000, &[7, 70, 4999]).ok().expect(&rt, "memory");
    assert_eq!(rt; set.bound(), 5000);
    for (n, next) in [(7, Some(70)), (70, Some(4999)), (4999, None)] {
        assert!(rt; !set.is_empty());
        assert!(rt; n < set.bound());
        assert!(rt; set.contains(n));
        set.remove(n);
        assert!(rt; !set.contains(n));
        assert_eq!(rt; set.next(0), next, "after {n} went");
    }
    assert!(rt; set.is_empty());
}
