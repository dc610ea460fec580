use disk_model::{Disk, MemDisk};
use frame_log::{GateLog, Kept, Opened, SourceReader, open, read_text};
use kept_port::Log;
use outside_io::CleanSource;
use std::test::Fail;

const SETUP: &[u8] = b"DAY;2025-06-02\nACC;X1;DCA;BANKA;;100.00\nACC;Y1;DCA;BANKB;;0.00\n";

const PAYMENT: &[u8] = b"PAY;BANKA;P1;N;X1;Y1;60.00\n";

const LIMIT: usize = 1_000_000;

// The digests of the header, the setup and the payment, as another program computes them.
const OF_HEADER: [u8; 32] = [
    0x0b, 0x66, 0xe6, 0x10, 0x28, 0x20, 0x78, 0x1a, 0x6c, 0x85, 0x52, 0x58, 0x06, 0x26, 0xff, 0x6e,
    0x3e, 0x24, 0x4d, 0x23, 0xfe, 0x9d, 0x77, 0xfd, 0xdc, 0x8e, 0xc1, 0x2f, 0xb4, 0x21, 0x37, 0x2f,
];

const OF_SETUP: [u8; 32] = [
    0x9e, 0xdc, 0x85, 0x30, 0xaa, 0xff, 0x60, 0x44, 0x5f, 0x1a, 0x06, 0x75, 0x4a, 0x89, 0xb7, 0x73,
    0x18, 0x8a, 0x41, 0xc8, 0xd3, 0xcf, 0xe4, 0x3b, 0x95, 0xd1, 0xad, 0xf4, 0x5a, 0x22, 0x2c, 0x6d,
];

const OF_PAYMENT: [u8; 32] = [
    0x7c, 0x0d, 0x8e, 0xba, 0xe4, 0xb9, 0x91, 0xd1, 0xd1, 0x00, 0xfe, 0xc6, 0x14, 0x04, 0xe2, 0xf1,
    0x4f, 0x26, 0x96, 0x8d, 0x56, 0x1e, 0xc3, 0xde, 0x6c, 0xbc, 0x22, 0x97, 0x9c, 0x63, 0x29, 0x0b,
];

// The bytes of the file after the two reads.
fn two_frames(rt: &HostRuntime) -> Result<Vec<u8>, Fail> {
    let mut bytes = Vec::new(rt.alloc());
    bytes.extend_from_slice(b"GAURVISK KEPT 1\n")?;
    bytes.extend_from_slice(&[1, 0, 0, 0, 0x3f])?;
    bytes.extend_from_slice(OF_SETUP.as_slice())?;
    bytes.extend_from_slice(SETUP)?;
    bytes.extend_from_slice(&[1, 0, 0, 0, 0x1b])?;
    bytes.extend_from_slice(OF_PAYMENT.as_slice())?;
    bytes.extend_from_slice(PAYMENT)?;
    bytes.push(0)?;
    Ok(bytes)
}

// A disk with these bytes, of which so many calls pass.
fn disk_of(rt: &HostRuntime, bytes: Vec<u8>, passes: u32) -> Result<MemDisk, Fail> {
    match MemDisk::make(rt.alloc(), bytes, 2000, 40, passes) {
        Ok(disk) => Ok(disk),
        Err(_) => Err(Fail::new("no memory for the disk")),
    }
}

// The log on a disk, and the text that it has.
fn log_of(rt: &HostRuntime, disk: MemDisk) -> Result<(GateLog<MemDisk>, Vec<u8>), Fail> {
    match open(rt.alloc(), disk, LIMIT) {
        Opened::Log { log, text } => Ok((log, text)),
        _ => Err(Fail::new("no log")),
    }
}

#[test]
fn two_reads_are_kept_byte_by_byte(rt: HostRuntime) -> Result<(), Fail> {
    let disk = disk_of(&rt, Vec::new(rt.alloc()), 1000)?;
    let (mut log, text) = log_of(&rt, disk)?;
    assert_eq!(rt; text.len(), 0);
    assert_eq!(rt; log.digest(), OF_HEADER);
    assert!(rt; log.append(SETUP).is_ok());
    assert_eq!(rt; log.digest(), OF_SETUP);
    assert!(rt; log.append(PAYMENT).is_ok());
    assert_eq!(rt; log.digest(), OF_PAYMENT);
    let disk = log.into_disk();
    assert_eq!(rt; disk.size(), 181);
    let expected = two_frames(&rt)?;
    assert_eq!(rt; disk.bytes(), expected.as_slice());
    Ok(())
}

// The bytes with another one at a place.
fn changed(mut bytes: Vec<u8>, place: usize, byte: u8) -> Vec<u8> {
    if place < bytes.len() {
        bytes[place] = byte;
    }
    bytes
}

// What is told of the file after the two reads, with one byte changed and so many bytes of it left.
fn told(rt: &HostRuntime, place: usize, byte: u8, count: usize) -> Result<Kept, Fail> {
    let mut bytes = changed(two_frames(rt)?, place, byte);
    bytes.truncate(count);
    let mut reader = SourceReader {
        source: CleanSource::over(bytes),
    };
    match read_text(rt.alloc(), &mut reader, LIMIT) {
        Ok(kept) => Ok(kept),
        Err(_) => Err(Fail::new("not read")),
    }
}

// Whether the text has so many bytes, and this digest.
fn is_text(kept: Kept, count: usize, digest: [u8; 32], end: u64) -> bool {
    match kept {
        Kept::Text(kept) => kept.text.len() == count && kept.digest == digest && kept.end == end,
        Kept::Foreign { .. } => false,
    }
}

fn is_foreign(kept: Kept, number: u64) -> bool {
    match kept {
        Kept::Text(_) => false,
        Kept::Foreign { frame } => frame == number,
    }
}

#[test]
fn files_tell_their_texts(rt: HostRuntime) -> Result<(), Fail> {
    assert!(rt; is_text(told(&rt, 180, 0, 181)?, 90, OF_PAYMENT, 180));
    // The crash came while the gate of the payment was opened.
    assert!(rt; is_text(told(&rt, 116, 0, 181)?, 63, OF_SETUP, 116));
    assert!(rt; is_text(told(&rt, 116, 7, 117)?, 63, OF_SETUP, 116));
    assert!(rt; is_text(told(&rt, 16, 0, 17)?, 0, OF_HEADER, 16));
    assert!(rt; is_text(told(&rt, 16, 255, 181)?, 0, OF_HEADER, 16));
    Ok(())
}

#[test]
fn foreign_files_tell_their_frame(rt: HostRuntime) -> Result<(), Fail> {
    // A byte of the text, of the digest, of the length; no next gate; no whole text.
    assert!(rt; is_foreign(told(&rt, 58, 0, 181)?, 1));
    assert!(rt; is_foreign(told(&rt, 30, 0, 181)?, 1));
    assert!(rt; is_foreign(told(&rt, 17, 1, 181)?, 1));
    assert!(rt; is_foreign(told(&rt, 20, 0, 181)?, 1));
    assert!(rt; is_foreign(told(&rt, 120, 0x1c, 181)?, 2));
    assert!(rt; is_foreign(told(&rt, 180, 0, 180)?, 2));
    assert!(rt; is_foreign(told(&rt, 180, 0, 140)?, 2));
    assert!(rt; is_foreign(told(&rt, 180, 1, 181)?, 3));
    // The header: another byte, no gate behind it, no whole header.
    assert!(rt; is_foreign(told(&rt, 0, 0, 181)?, 0));
    assert!(rt; is_foreign(told(&rt, 15, 13, 181)?, 0));
    assert!(rt; is_foreign(told(&rt, 16, 1, 16)?, 0));
    assert!(rt; is_foreign(told(&rt, 16, 1, 0)?, 0));
    Ok(())
}

#[test]
fn a_log_goes_on_where_it_ended(rt: HostRuntime) -> Result<(), Fail> {
    let bytes = changed(two_frames(&rt)?, 116, 0);
    let (mut log, text) = log_of(&rt, disk_of(&rt, bytes, 1000)?)?;
    assert_eq!(rt; text.as_slice(), SETUP);
    assert!(rt; log.append(PAYMENT).is_ok());
    let disk = log.into_disk();
    let expected = two_frames(&rt)?;
    assert_eq!(rt; disk.bytes(), expected.as_slice());
    Ok(())
}

#[test]
fn after_a_failed_call_all_fail(rt: HostRuntime) -> Result<(), Fail> {
    // A sync, a write and a sync make the log; the fourth call of the first piece fails.
    let (mut log, _) = log_of(&rt, disk_of(&rt, Vec::new(rt.alloc()), 6)?)?;
    assert!(rt; log.append(SETUP).is_err());
    assert!(rt; log.append(SETUP).is_err());
    let disk = log.into_disk();
    let (_, text) = log_of(&rt, disk_of(&rt, disk.bytes().to_vec(rt.alloc())?, 1000)?)?;
    assert_eq!(rt; text.as_slice(), SETUP);
    Ok(())
}
