use record_rows::{InputReader, Line, Row};

// What a reader has after these bytes, as long as few records come.
fn read(text: &[u8]) -> InputReader {
    let mut reader = InputReader::new();
    for b in text {
        if reader.whole() < 1_000_000 {
            reader.feed(*b);
        }
    }
    reader
}

// Whether a row has these fields and no others.
fn has_fields(row: &Row, fields: &[&[u8]]) -> bool {
    if row.len() != fields.len() {
        return false;
    }
    for i in 0..fields.len() {
        if row.field(i) != fields[i] {
            return false;
        }
    }
    true
}

fn comes_as(text: &[u8], whole: u64, fields: &[&[u8]]) -> bool {
    let reader = read(text);
    reader.whole() == whole && has_fields(reader.row(), fields)
}

#[test]
fn records_come_with_their_line_ends(rt: HostRuntime) {
    assert!(rt; comes_as(b"DAY;2025-06-02\n", 1, &[b"DAY", b"2025-06-02"]));
    assert!(rt; comes_as(b"A;B\r\n\nC;;\r", 2, &[b"C", b"", b""]));
    assert!(rt; comes_as(b"A;B\nC;D;E", 1, &[b"C", b"D"]));
    assert!(rt; read(b"A").row().field(0).is_empty());
}

#[test]
fn quotes_keep_what_stands_in_them(rt: HostRuntime) {
    assert!(rt; comes_as(b"\"A\r\nB;C\";\"x\"\"y\"\n", 1, &[b"A\r\nB;C", b"x\"y"]));
    assert!(rt; comes_as(b"\"A\nB", 0, &[]));
}

#[test]
fn a_mark_is_no_part_of_a_record(rt: HostRuntime) {
    assert!(rt; comes_as(b"\xEF\xBB\xBFA\n", 1, &[b"A"]));
    assert!(rt; comes_as(b"\xEF\xBBA\n", 1, &[b"\xEF\xBBA"]));
}

// As many bytes of this sort, and then a line end.
fn long_line(reader: &mut InputReader, b: u8, n: u32) {
    for _ in 0..n {
        if reader.whole() < 1_000_000 {
            reader.feed(b);
        }
    }
    if reader.whole() < 1_000_000 {
        reader.feed(b'\n');
    }
}

#[test]
fn as_much_is_kept_as_there_is_room_for(rt: HostRuntime) {
    let mut reader = InputReader::new();
    long_line(&mut reader, b'x', 70);
    assert_eq!(rt; reader.row().field(0).len(), 64);
    long_line(&mut reader, b'x', 64);
    assert_eq!(rt; reader.row().field(0).len(), 64);
    long_line(&mut reader, b';', 20);
    assert_eq!(rt; reader.row().len(), 16);
    assert_eq!(rt; reader.whole(), 3);
}

#[test]
fn lines_are_followed(rt: HostRuntime) {
    for (text, line) in [
        (&b""[..], Line::Begun),
        (&b"A\nEN"[..], Line::HasEN),
        (&b"A\rEND"[..], Line::HasEND),
        (&b"\"A\nEND\r"[..], Line::Over),
        (&b"ENDE\n"[..], Line::Begun),
        (&b"A END"[..], Line::Other),
    ] {
        assert_eq!(rt; read(text).line(), line);
    }
}

#[test]
fn the_last_record_may_lack_its_line_end(rt: HostRuntime) {
    let mut reader = read(b"A;B\nC;D");
    assert!(rt; reader.close());
    assert!(rt; has_fields(reader.row(), &[b"C", b"D"]));
    assert!(rt; !read(b"A\n").close());
}
