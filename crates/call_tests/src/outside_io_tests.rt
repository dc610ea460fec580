ghost use Rattle.std.specs.Prelude.{◌≡◌, ◌<◌, length, Ok, OnOk};

use outside_io::{
    CleanSource, Failed, Gate, GatheringSink, MemSink, MemSource, NoGate, ReadEnd, Sink, Source,
    StdSink, StdSource, WriteFault, put_all, put_fields, read_all,
};
use std::io;
use std::io::{Read, Write};
use std::process::Abort;
use std::test::Fail;

// Whether a text is read whole within a limit, where the reads of these numbers fail; else why not.
fn read_text(
    rt: &HostRuntime,
    text: &[u8],
    fails: &[u64],
    limit: u32,
) -> Result<Result<bool, ReadEnd>, Fail> {
    let alloc = rt.alloc();
    let mut source = MemSource::over(text.to_vec(alloc)?, fails.to_vec(alloc)?);
    match read_all(alloc, &mut source, limit as usize) {
        Ok(all) => Ok(Ok(all.as_slice() == text)),
        Err(end) => Ok(Err(end)),
    }
}

#[test]
fn sources_are_read_to_their_end(rt: HostRuntime) -> Result<(), Fail> {
    let text = b"two payments".as_slice();
    for (fails, limit, expected) in [
        ([0u64], 12, Ok(true)),
        ([0], 11, Err(ReadEnd::Size)),
        ([1], 12, Err(ReadEnd::Fault)),
        ([2], 12, Err(ReadEnd::Fault)),
        ([2], 11, Err(ReadEnd::Size)),
        // It isn't asked again after its end.
        ([3], 12, Ok(true)),
    ] {
        assert_eq!(rt; read_text(&rt, text, &fails, limit)?, expected);
    }
    Ok(())
}

// The text is longer than one piece.
#[test]
fn long_sources_are_read_to_their_end(rt: HostRuntime) -> Result<(), Fail> {
    let long = [7u8; 40_000];
    for (fails, limit, expected) in [
        ([0u64], 39_999, Err(ReadEnd::Size)),
        ([3], 40_000, Err(ReadEnd::Fault)),
        ([0], 40_000, Ok(true)),
    ] {
        assert_eq!(rt; read_text(&rt, &long, &fails, limit)?, expected);
    }
    Ok(())
}

#[test]
fn a_clean_source_is_read_to_its_end(rt: HostRuntime) -> Result<(), Fail> {
    let alloc = rt.alloc();
    let text = b"two payments";
    let mut clean = CleanSource::over(text.to_vec(alloc)?);
    match read_all(alloc, &mut clean, 100) {
        Ok(all) => assert_eq!(rt; all.as_slice(), text.as_slice()),
        Err(_) => panic!(&rt; "a clean source fails"),
    }
    Ok(())
}

#[test]
fn sinks_take_what_there_is_room_for(rt: HostRuntime) -> Result<(), Fail> {
    let alloc = rt.alloc();
    for (room, fails, expected, written) in [
        (12, [0, 0], Ok(()), 12),
        (30, [0, 0], Ok(()), 12),
        (5, [0, 0], Err(WriteFault), 5),
        (30, [1, 0], Err(WriteFault), 0),
        (0, [0, 0], Err(WriteFault), 0),
    ] {
        let mut sink = MemSink::over(vec![in alloc; 0u8; room]?, fails.to_vec(alloc)?);
        let text = b"two payments";
        assert_eq!(rt; put_all(&mut sink, text), expected);
        assert_eq!(rt; sink.written(), &text[..written]);
    }
    Ok(())
}

#[test]
fn fields_make_a_line(rt: HostRuntime) -> Result<(), Fail> {
    let alloc = rt.alloc();
    let fields: [&[u8]; 3] = [b"two", b"", b"payments"];
    let line = b"two;;payments\n";
    for room in 0..=line.len() {
        let mut sink = MemSink::over(vec![in alloc; 0u8; room]?, Vec::new(alloc));
        let all = put_fields(&mut sink, &fields).is_ok();
        assert_eq!(rt; all, room == line.len());
        assert_eq!(rt; sink.written(), &line[..room]);
    }
    let mut sink = MemSink::over(vec![in alloc; 0u8; 9]?, Vec::new(alloc));
    assert_eq!(rt; put_fields(&mut sink, &[]), Ok(()));
    assert_eq!(rt; sink.written(), b"\n".as_slice());
    Ok(())
}

// A reader of std that gives one byte a call, and fails at its first.
#[derive(Drop)]
struct Reading {
    failed: bool,
    left: u32,
}

impl Read for Reading {
    fn read(&mut self, buf: &mut [u8]) -> io::Result<usize> {
        if !self.failed {
            self.failed = true;
            return Err(io::Error::from(io::ErrorKind::BrokenPipe));
        }
        match buf.first_mut() {
            Some(place) if self.left > 0 => {
                *place = b'x';
                self.left -= 1;
                Ok(1)
            }
            _ => Ok(0),
        }
    }
}

#[test]
fn a_reader_of_std_is_a_source(rt: HostRuntime) -> Result<(), Fail> {
    let alloc = rt.alloc();
    let mut source = StdSource::over(Reading {
        failed: false,
        left: 3,
    });
    let first = read_all(alloc, &mut source, 3);
    assert_eq!(rt; first.err(), Some(ReadEnd::Fault));
    let all = read_all(alloc, &mut source, 3);
    assert_eq!(rt; all.ok().expect(&rt, "all").as_slice(), b"xxx".as_slice());
    Ok(())
}

// A writer of std that takes one byte a call, fails at its first, and has room for so many.
#[derive(Drop)]
struct Writing {
    failed: bool,
    room: u32,
}

impl Write for Writing {
    fn write(&mut self, buf: &[u8]) -> io::Result<usize> {
        if !self.failed {
            self.failed = true;
            return Err(io::Error::from(io::ErrorKind::BrokenPipe));
        }
        if self.room == 0 || buf.is_empty() {
            return Ok(0);
        }
        self.room -= 1;
        Ok(1)
    }

    fn flush(&mut self) -> io::Result<()> {
        Ok(())
    }
}

#[test]
fn a_writer_of_std_is_a_sink(rt: HostRuntime) {
    let mut sink = StdSink::over(Writing {
        failed: false,
        room: 3,
    });
    assert_eq!(rt; put_all(&mut sink, b"pay"), Err(WriteFault));
    assert_eq!(rt; put_all(&mut sink, b"pay"), Ok(()));
    // A writer that takes nothing is a fault.
    assert_eq!(rt; put_all(&mut sink, b"!"), Err(WriteFault));
}

// A writer and a reader of std that note the length of each piece that they are offered, and fail at one call. Else they
// take the whole, or fill the whole.
#[derive(Drop)]
struct Noting {
    calls: u64,
    fails: u64,
    lengths: [usize; 100],
}

impl Noting {
    fn failing_at(fails: u64) -> Noting {
        Noting {
            calls: 0,
            fails,
            lengths: [0; 100],
        }
    }

    fn note(&mut self, length: usize) -> io::Result<usize>
        ensures { OnOk result (result ≡ Ok length) }
    {
        if let Some(place) = self.lengths.get_mut(self.calls as usize) {
            *place = length;
        }
        self.calls = self.calls.saturating_add(1);
        if self.calls == self.fails {
            return Err(io::Error::from(io::ErrorKind::BrokenPipe));
        }
        Ok(length)
    }
}

impl Write for Noting {
    fn write(&mut self, buf: &[u8]) -> io::Result<usize> {
        self.note(buf.len())
    }

    fn flush(&mut self) -> io::Result<()> {
        Ok(())
    }
}

impl Read for Noting {
    fn read(&mut self, buf: &mut [u8]) -> io::Result<usize> {
        self.note(buf.len())
    }
}

// Each length from 1 to 100 was offered, in this order and once.
fn expect_all_lengths(rt: &impl Abort, noting: &Noting) {
    assert_eq!(rt; noting.calls, 100);
    for (before, length) in noting.lengths.iter().enumerate() {
        assert_eq!(rt; *length, before + 1);
    }
}

#[test]
fn a_writer_is_offered_each_piece_once(rt: HostRuntime) {
    let piece = [b'x'; 100];
    for fails in 0..101u64 {
        let mut noting = Noting::failing_at(fails);
        let mut sink = StdSink::over(&mut noting);
        for length in 1..101usize {
            let expected = if length as u64 == fails {
                Err(Failed)
            } else {
                Ok(length)
            };
            assert_eq!(rt; sink.write(&piece[..length]), expected);
        }
        expect_all_lengths(&rt, &noting);
    }
}

#[test]
fn a_reader_is_offered_each_buffer_once(rt: HostRuntime) {
    let mut buffer = [0; 100];
    for fails in 0..101u64 {
        let mut noting = Noting::failing_at(fails);
        let mut source = StdSource::over(&mut noting);
        for length in 1..101usize {
            let expected = if length as u64 == fails {
                Err(Failed)
            } else {
                Ok(length)
            };
            assert_eq!(rt; source.read(&mut buffer[..length]), expected);
        }
        expect_all_lengths(&rt, &noting);
    }
}

// Puts the pieces through a sink that gathers so many bytes, and hands on the rest where all were put.
fn put_pieces(sink: &mut MemSink, room: &mut [u8], pieces: &[&[u8]]) -> Result<(), WriteFault>
    requires { 0 < length room.old }
{
    let mut gathering = GatheringSink::over(sink, room);
    for piece in pieces {
        put_all(&mut gathering, piece)?;
    }
    gathering.hand_on()
}

const PIECED: &[u8] = b"two payments of 60.00";

// Whether a sink that gathers so many bytes, and of whose calls one fails, takes the pieces, or what it took before that call.
fn gathers(rt: &HostRuntime, size: usize, fails: u64) -> Result<bool, Fail>
    requires { 0 < size }
{
    let alloc = rt.alloc();
    // They fill the room exactly, cross its end, and are longer than it, as the room is.
    let pieces: [&[u8]; 6] = [b"two ", b"pay", b"", b"ments of", b" ", b"60.00"];
    // So many calls are needed, and the last takes what is left.
    let needed = (PIECED.len() as u64).div_ceil(size as u64);
    let mut room = vec![in alloc; 0u8; size]?;
    let numbers = [fails].to_vec(alloc)?;
    let mut sink = MemSink::over(vec![in alloc; 0u8; 21]?, numbers);
    let result = put_pieces(&mut sink, &mut room, &pieces);
    let written = sink.written();
    if fails == 0 || needed < fails {
        Ok(result == Ok(()) && written == PIECED)
    } else {
        Ok(
            result == Err(WriteFault)
                && written.len() as u64 == (fails - 1) * size as u64
                && PIECED.starts_with(written),
        )
    }
}

#[test]
fn pieces_are_gathered(rt: HostRuntime) -> Result<(), Fail> {
    for size in 1..25usize {
        for fails in 0..23u64 {
            assert!(rt; gathers(&rt, size, fails)?, "{size}, {fails}");
        }
    }
    Ok(())
}

#[test]
fn a_gate_lets_pass(rt: HostRuntime) {
    fn pass<G: Gate>(gate: &G) -> u32 {
        gate.hold(1);
        1
    }
    assert_eq!(rt; pass(&NoGate), 1);
}
