use batch_records::{most_entries_of_day, most_messages, read_day};
use std::alloc::Global;
use std::process::Abort;

// Which message each of the five of a day repeats.
fn repeated(rt: &impl Abort, alloc: Global, input: &[u8]) -> [Option<u32>; 5] {
    let (day, _) = read_day(alloc, input).ok().expect(rt, "a day");
    if day.message_count() != 5 {
        panic!(rt; "other messages");
    }
    let told = [
        day.earlier(1),
        day.earlier(2),
        day.earlier(3),
        day.earlier(4),
        day.earlier(5),
    ];
    drop(day);
    told
}

#[test]
fn repeats(rt: HostRuntime) {
    let input =
        b"DAY;2025-06-02\nPAY;BANKA;P1;N;X1;Y1;1.00\nPAY;BANKB;P1;N;X1;Y1;1.00\nPAY;BANKA;p1;N;X1;Y1;1.00\nPAY;BANKA;P1;N;Y1;X1;2.00\nPAY;BANKA;P1;N;X1;Y1;1.00\nEND\n";
    let told = repeated(&rt, rt.alloc(), input);
    assert_eq!(rt; told, [None, None, None, Some(1), Some(1)]);
}

#[test]
fn limits_are_of_the_version(rt: HostRuntime) {
    for (version, messages, entries) in [
        (1, 100_000, 1_000_000),
        (2, 100_000, 1_000_000),
        (3, 1_000_000, 2_000_000),
    ] {
        assert_eq!(rt; most_messages(version), messages);
        assert_eq!(rt; most_entries_of_day(version), entries);
    }
}
