use cash_amounts::{Cents, MsgId, Name};
use commit_journal::Code;
use outside_io::MemSink;
use status_messages::{Status, TurnCode, put_status, read_status};
use std::alloc::{AllocError, Global};
use std::process::Abort;
use std::test::Fail;

const LONGEST: &str = "ABCDEFGHIJKLMNOPQRSTUVWXYZ01234567";

fn name(rt: &impl Abort, text: &str) -> Name {
    Name::read(text.as_bytes()).expect(rt, "a name")
}

// Whether sinks of every size get this text, or the front of it for which there is room; and whether the line is read back.
fn has_text(alloc: Global, status: &Status, text: &[u8]) -> Result<bool, AllocError> {
    for room in 0..=text.len() {
        let mut sink = MemSink::over(vec![in alloc; 0u8; room]?, Vec::new(alloc));
        let all = put_status(status, &mut sink).is_ok();
        if all != (room == text.len()) || sink.written() != &text[..room] {
            return Ok(false);
        }
    }
    let Some((_, line)) = text.split_last() else {
        return Ok(false);
    };
    Ok(match read_status(u32::MAX, line) {
        Some(read) => read == *status,
        None => false,
    })
}

// The greatest numbers and the longest names.
#[test]
fn longest_text_of_a_turn(rt: HostRuntime) -> Result<(), Fail> {
    let id = b"abcdefghijklmnopqrstuvwxyz0123456-Z";
    let status = Status::Turn {
        place: 4_294_967_295,
        to: name(&rt, LONGEST),
        code: TurnCode::Acpt,
        msg: 4_294_967_295,
        sender: name(&rt, LONGEST),
        id: MsgId::read(id.as_slice()).expect(&rt, "an identification"),
        entry: 4_294_967_295,
        reason: Code::Gs,
    };
    let text =
        b"S;4294967295;ABCDEFGHIJKLMNOPQRSTUVWXYZ01234567;ACPT;4294967295;ABCDEFGHIJKLMNOPQRSTUVWXYZ01234567;abcdefghijklmnopqrstuvwxyz0123456-Z;4294967295;GS\n";
    assert!(rt; has_text(rt.alloc(), &status, text.as_slice())?);
    Ok(())
}

#[test]
fn texts_of_moves(rt: HostRuntime) -> Result<(), Fail> {
    let rows: [(bool, u64, &[u8]); 2] = [
        (true, 1, b"S;7;ACPT;DBIT;CRDT;0.01\n"),
        (
            false,
            1_000_000_000_000_000_000,
            b"S;7;ACPT;CRDT;CRDT;10000000000000000.00\n",
        ),
    ];
    for (debit, cents, text) in rows {
        let status = Status::Moved {
            place: 7,
            to: name(&rt, "ACPT"),
            debit,
            account: name(&rt, "CRDT"),
            amount: Cents::of(cents).expect(&rt, "an amount"),
        };
        assert!(rt; has_text(rt.alloc(), &status, text)?);
    }
    Ok(())
}

// A place of 0 is written as any other, and isn't read.
#[test]
fn a_place_of_0_is_written_and_not_read(rt: HostRuntime) -> Result<(), Fail> {
    let alloc = rt.alloc();
    let status = Status::Moved {
        place: 0,
        to: name(&rt, "BANKA"),
        debit: true,
        account: name(&rt, "X1"),
        amount: Cents::of(6000).expect(&rt, "an amount"),
    };
    let mut sink = MemSink::over(vec![in alloc; 0u8; 40]?, Vec::new(alloc));
    assert!(rt; put_status(&status, &mut sink).is_ok());
    assert_eq!(rt; sink.written(), b"S;0;BANKA;DBIT;X1;60.00\n".as_slice());
    assert!(rt; read_status(u32::MAX, b"S;0;BANKA;DBIT;X1;60.00").is_none());
    Ok(())
}

// A number above that of the last message that a day can have is of none.
#[test]
fn numbers_of_messages_end_where_told(rt: HostRuntime) {
    let rows: [(u32, &[u8], bool); 5] = [
        (100_000, b"S;1;BANKA;ACPT;100000;BANKA;P1;0;OK", true),
        (100_000, b"S;1;BANKA;ACPT;100001;BANKA;P1;0;OK", false),
        (1_000_000, b"S;1;BANKA;ACPT;1000000;BANKA;P1;0;OK", true),
        (1_000_000, b"S;1;BANKA;ACPT;1000001;BANKA;P1;0;OK", false),
        (1, b"S;7;BANKA;DBIT;X1;60.00", true),
    ];
    for (most, line, is_read) in rows {
        assert_eq!(rt; read_status(most, line).is_some(), is_read);
    }
}

// Bytes that a line of text can't end with, and names of whom nobody can ask.
#[test]
fn other_lines_are_no_statuses(rt: HostRuntime) {
    let rows: [&[u8]; 6] = [
        b"S;1;BANKA;DBIT;X1;60.00\n",
        b"S;1;BANKA;ACPT;1;BANKA;P1;0;OK\n",
        b"S;1;;DBIT;X1;60.00",
        b"S;1;banka;DBIT;X1;60.00",
        b"S;1;ABCDEFGHIJKLMNOPQRSTUVWXYZ012345678;DBIT;X1;60.00",
        b"S;1;;ACPT;1;BANKA;P1;0;OK",
    ];
    for line in rows {
        assert!(rt; read_status(u32::MAX, line).is_none());
    }
}
