ghost use Rattle.std.specs.Prelude.{◌≡◌, ◌<◌, [], length};

use cash_amounts::Cents;
use commit_journal::{Code, Head, Journal, Kind, Move, MoveList, put_journal, put_line, read_line};
use outside_io::MemSink;
use std::alloc::{AllocError, Global};
use std::process::Abort;
use std::test::Fail;

fn head(kind: Kind, msg: u32, entry: u32, code: Code) -> Head {
    Head {
        kind,
        msg,
        entry,
        code,
    }
}

fn one_move(rt: &impl Abort, debit: u32, credit: u32, cents: u64) -> Move {
    let amount = Cents::of(cents).expect(rt, "an amount");
    Move {
        debit,
        credit,
        amount,
    }
}

// A payment that is booked, and the end of its day.
fn of_one_payment(rt: &impl Abort, alloc: Global) -> Journal {
    let mut journal = match Journal::with_room(alloc, 3, 1) {
        Ok(journal) => journal,
        Err(_) => panic!(rt; "memory"),
    };
    let booked = one_move(rt, 1, 2, 6000);
    journal.push(head(Kind::In, 1, 0, Code::Ok), &[]);
    journal.push(head(Kind::Book, 1, 0, Code::Ok), &[booked]);
    journal.push(head(Kind::End, 0, 0, Code::Ok), &[]);
    journal
}

fn has_line(journal: &Journal, place: u32, kind: Kind, moves: usize) -> bool {
    if place == 0 || place > journal.len() {
        return false;
    }
    let (line, made) = journal.line(place);
    line.kind == kind && line.code.text() == b"OK".as_slice() && made.len() == moves
}

const OF_ONE_PAYMENT: &[u8] =
    b"J;1;IN;1;0;OK;0\nJ;2;BOOK;1;0;OK;1\nM;1;2;60.00\nJ;3;END;0;0;OK;0\n";

// What is written of a journal where there is so much room, and whether it is all.
fn written(alloc: Global, journal: &Journal, room: usize) -> Result<(Vec<u8>, bool), AllocError> {
    let mut sink = MemSink::over(vec![in alloc; 0u8; room]?, Vec::new(alloc));
    let all = put_journal(journal, &mut sink).is_ok();
    Ok((sink.written().to_vec(alloc)?, all))
}

fn is_written(
    alloc: Global,
    journal: &Journal,
    room: usize,
    text: &[u8],
) -> Result<bool, AllocError> {
    let (bytes, all) = written(alloc, journal, room)?;
    Ok(bytes.as_slice() == text && all == (text.len() == OF_ONE_PAYMENT.len()))
}

#[test]
fn lines_come_back_in_their_order(rt: HostRuntime) -> Result<(), Fail> {
    let alloc = rt.alloc();
    let journal = of_one_payment(&rt, alloc);
    let lines = journal.len() == 3
        && has_line(&journal, 1, Kind::In, 0)
        && has_line(&journal, 2, Kind::Book, 1)
        && has_line(&journal, 3, Kind::End, 0);
    let moves = journal.moves().len();
    let whole = is_written(alloc, &journal, 100, OF_ONE_PAYMENT);
    // There is room for the first line and a front of the second.
    let front = is_written(alloc, &journal, 30, &OF_ONE_PAYMENT[..30]);
    drop(journal);
    assert!(rt; lines);
    assert_eq!(rt; moves, 1);
    assert!(rt; whole?);
    assert!(rt; front?);
    Ok(())
}

// Whether sinks of every size get this text of the line, or the front of it for which there is room.
fn has_text(
    alloc: Global,
    place: u32,
    head: Head,
    moves: &[Move],
    text: &[u8],
) -> Result<bool, AllocError> {
    for room in 0..=text.len() {
        let mut sink = MemSink::over(vec![in alloc; 0u8; room]?, Vec::new(alloc));
        let all = put_line(place, head, moves, &mut sink).is_ok();
        if all != (room == text.len()) || sink.written() != &text[..room] {
            return Ok(false);
        }
    }
    Ok(true)
}

// Place, kind, message, entry, code and moves of a line, and its text: a line of each kind, and the longest.
const LINES: [(u32, Kind, u32, u32, Code, &[(u32, u32, u64)], &[u8]); 11] = [
    (1, Kind::In, 1, 0, Code::Ok, &[], b"J;1;IN;1;0;OK;0\n"),
    (
        3,
        Kind::Book,
        1,
        2,
        Code::Ok,
        &[(2, 4, 6000)],
        b"J;3;BOOK;1;2;OK;1\nM;2;4;60.00\n",
    ),
    (
        5,
        Kind::All,
        1,
        0,
        Code::Ok,
        &[(1, 5, 4000), (2, 5, 6000), (5, 3, 10000)],
        b"J;5;ALL;1;0;OK;3\nM;1;5;40.00\nM;2;5;60.00\nM;5;3;100.00\n",
    ),
    (
        3,
        Kind::Time,
        0,
        39600,
        Code::Ok,
        &[],
        b"J;3;TIME;0;39600;OK;0\n",
    ),
    (4, Kind::Ask, 1, 0, Code::Ok, &[], b"J;4;ASK;1;0;OK;0\n"),
    (
        7,
        Kind::Cover,
        1,
        0,
        Code::Ok,
        &[(9, 4, 6000)],
        b"J;7;COVER;1;0;OK;1\nM;9;4;60.00\n",
    ),
    (
        7,
        Kind::Refuse,
        1,
        0,
        Code::Gs,
        &[(4, 1, 4000)],
        b"J;7;REFUSE;1;0;GS;1\nM;4;1;40.00\n",
    ),
    (
        8,
        Kind::Expire,
        2,
        0,
        Code::Ce,
        &[],
        b"J;8;EXPIRE;2;0;CE;0\n",
    ),
    (
        10,
        Kind::Sweep,
        0,
        8,
        Code::Ok,
        &[(8, 1, 1000)],
        b"J;10;SWEEP;0;8;OK;1\nM;8;1;10.00\n",
    ),
    (11, Kind::End, 0, 0, Code::Ok, &[], b"J;11;END;0;0;OK;0\n"),
    (
        4_294_967_295,
        Kind::In,
        1_000_000,
        86_400,
        Code::Ge,
        &[(1, 4096, 1_000_000_000_000_000_000)],
        b"J;4294967295;IN;1000000;86400;GE;1\nM;1;4096;10000000000000000.00\n",
    ),
];

fn moves_of(
    rt: &impl Abort,
    alloc: Global,
    listed: &[(u32, u32, u64)],
) -> Result<Vec<Move>, AllocError> {
    let mut moves = Vec::new(alloc);
    for (debit, credit, cents) in listed {
        moves.push(one_move(rt, *debit, *credit, *cents))?;
    }
    Ok(moves)
}

// The same with the moves as they are listed in the table.
fn has_text_of(
    rt: &impl Abort,
    alloc: Global,
    place: u32,
    head: Head,
    listed: &[(u32, u32, u64)],
    text: &[u8],
) -> Result<bool, AllocError> {
    let moves = moves_of(rt, alloc, listed)?;
    has_text(alloc, place, head, moves.as_slice(), text)
}

#[test]
fn texts_of_lines(rt: HostRuntime) -> Result<(), Fail> {
    for (place, kind, msg, entry, code, listed, text) in LINES {
        let line = head(kind, msg, entry, code);
        assert!(rt;
            has_text_of(&rt, rt.alloc(), place, line, listed, text)?,
            "{place}"
        );
    }
    Ok(())
}

#[test]
fn moves_are_listed_and_cleared(rt: HostRuntime) {
    let mut list = match MoveList::with_room(rt.alloc(), 2) {
        Ok(list) => list,
        Err(_) => panic!(&rt; "memory"),
    };
    list.push(one_move(&rt, 1, 4, 4000));
    list.push(one_move(&rt, 2, 4, 6000));
    assert_eq!(rt; list.as_slice().len(), 2);
    assert_eq!(rt; list.as_slice()[1].amount.get(), 6000);
    list.clear();
    assert!(rt; list.as_slice().is_empty());
    list.push(one_move(&rt, 4, 3, 10000));
    list.push(one_move(&rt, 4, 2, 1));
    assert_eq!(rt; list.as_slice()[0].debit, 4);
}

// The length of the line that is read, of no message above `most`; and whether it is written as it was read, and where none is
// whether the fault has its place and no move is left in the list.
fn length_in(
    alloc: Global,
    input: &[u8],
    place: u32,
    most: u32,
    list: &mut MoveList,
) -> Result<(Option<usize>, bool), AllocError>
    requires { (list.old.moves ≡ []) × (list.old.room ≡ 50000) }
{
    match read_line(input, place, most, list) {
        Ok((head, n)) => {
            let mut sink = MemSink::over(vec![in alloc; 0u8; n]?, Vec::new(alloc));
            let all = put_line(place, head, list.as_slice(), &mut sink).is_ok();
            let same = input.starts_with(sink.written());
            Ok((Some(n), all && same))
        }
        Err(fault) => Ok((None, fault.place == place && list.as_slice().is_empty())),
    }
}

// Whether a line of this length is read, and where this is none, none.
fn is_read(
    alloc: Global,
    input: &[u8],
    place: u32,
    most: u32,
    len: Option<usize>,
) -> Result<bool, AllocError> {
    let mut list = match MoveList::with_room(alloc, 50_000) {
        Ok(list) => list,
        Err(_) => return Ok(false),
    };
    let found = length_in(alloc, input, place, most, &mut list);
    drop(list);
    match found {
        Ok((read, right)) => Ok(right && read == len),
        Err(e) => Err(e),
    }
}

// The text with another byte in the place of one.
fn with_x(alloc: Global, text: &[u8], i: usize) -> Result<Vec<u8>, AllocError>
    requires { i < length text.now }
{
    let mut input = Vec::new(alloc);
    input.extend_from_slice(&text[..i])?;
    input.extend_from_slice(b"x")?;
    input.extend_from_slice(&text[i + 1..])?;
    Ok(input)
}

// Whether no line is read of the front of a text, nor where one byte is another.
fn is_read_whole_alone(alloc: Global, text: &[u8], place: u32, i: usize) -> Result<bool, AllocError>
    requires { i < length text.now }
{
    let input = with_x(alloc, text, i)?;
    let front = is_read(alloc, &text[..i], place, 1_000_000, None)?;
    let changed = is_read(alloc, input.as_slice(), place, 1_000_000, None)?;
    Ok(front && changed)
}

fn is_read_at(alloc: Global, text: &[u8], place: u32) -> Result<bool, AllocError> {
    for i in 0..text.len() {
        if !is_read_whole_alone(alloc, text, place, i)? {
            return Ok(false);
        }
    }
    let whole = is_read(alloc, text, place, 1_000_000, Some(text.len()))?;
    let elsewhere = is_read(alloc, text, place / 2, 1_000_000, None)?;
    Ok(whole && elsewhere)
}

// Each line is read at its place and at no other, whole, and with no byte changed.
#[test]
fn lines_are_read(rt: HostRuntime) -> Result<(), Fail> {
    for (place, _, _, _, _, _, text) in LINES {
        assert!(rt; is_read_at(rt.alloc(), text, place)?, "{place}");
    }
    Ok(())
}

const SPOILT: [&[u8]; 5] = [
    b"J;01;IN;1;0;OK;0\n",
    b"J;1;IN;100001;0;OK;0\n",
    b"J;1;IN;1;0;XX;0\n",
    b"J;1;IN;1;0;OK;0\r\n",
    b"J;1;IN;1;0;OK;1\nM;1;2;0.00\n",
];

#[test]
fn other_texts_are_not_read(rt: HostRuntime) -> Result<(), Fail> {
    for text in SPOILT {
        assert!(rt; is_read(rt.alloc(), text, 1, 100_000, None)?);
    }
    // No line has the place 0.
    assert!(rt; is_read(rt.alloc(), b"J;0;IN;1;0;OK;0\n", 0, 100_000, None)?);
    Ok(())
}

// Lines of the same place, the greatest number of a message, and whether they are read.
const NUMBERED: [(&[u8], u32, bool); 6] = [
    (b"J;1;IN;100000;0;OK;0\n", 100_000, true),
    (b"J;1;IN;100001;0;OK;0\n", 100_000, false),
    (b"J;1;IN;100001;0;OK;0\n", 1_000_000, true),
    (b"J;1;IN;1000000;0;OK;0\n", 1_000_000, true),
    (b"J;1;IN;1000001;0;OK;0\n", 1_000_000, false),
    (b"J;1;IN;0100000;0;OK;0\n", 1_000_000, false),
];

// The greatest number of a message is the reader's: six digits for a day of version 1 or 2, seven for one of version 3.
#[test]
fn numbers_of_messages_are_bounded(rt: HostRuntime) -> Result<(), Fail> {
    for (text, most, whole) in NUMBERED {
        let len = if whole { Some(text.len()) } else { None };
        assert!(rt; is_read(rt.alloc(), text, 1, most, len)?);
    }
    Ok(())
}
