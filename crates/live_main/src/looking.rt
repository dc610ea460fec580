//! What is kept on a file, for those who look.
use frame_log::{Kept, KeptText, SourceReader, read_text};
use kept_day::{put_busy, put_foreign, put_kept};
use outside_io::{ReadEnd, StdSink, StdSource, put_all};
use program_answers::MAX_INPUT;
use sha2::{Digest, Sha256};
use std::fs::{self, File, TryLockError};

// The digest before the first frame.
fn first_digest() -> [u8; 32] {
    Sha256::digest(b"GAURVISK KEPT 1\n".as_slice())
}

// The file at this path, which is there, and is one.
fn open_file(rt: &HostRuntime, path: &str) -> Result<File, u8> {
    let Ok(looks) = fs::metadata(rt, path) else {
        return Err(8);
    };
    if !looks.is_file() {
        return Err(8);
    }
    match File::open(rt, path) {
        Ok(file) => Ok(file),
        Err(_) => Err(8),
    }
}

// Asks for the lock of a file.
fn lock(rt: &HostRuntime, file: &File) -> Result<(), u8> {
    match file.try_lock() {
        Ok(()) => Ok(()),
        Err(TryLockError::WouldBlock) => {
            let mut told = StdSink::over(rt.stderr());
            let _ = put_busy(&mut told);
            Err(10)
        }
        Err(TryLockError::Error(_)) => Err(8),
    }
}

// What is kept on a file that has bytes.
fn text_in(rt: &HostRuntime, file: File) -> Result<KeptText, u8> {
    let mut reader = SourceReader {
        source: StdSource::over(file),
    };
    match read_text(rt.alloc(), &mut reader, MAX_INPUT + 1) {
        Ok(Kept::Text(kept)) => Ok(kept),
        Ok(Kept::Foreign { frame }) => {
            let mut told = StdSink::over(rt.stderr());
            let _ = put_foreign(frame, &mut told);
            Err(9)
        }
        Err(ReadEnd::Fault) => Err(8),
        Err(ReadEnd::Size) => Err(9),
        Err(ReadEnd::Memory(_)) => Err(1),
    }
}

// What is kept on a file. Without bytes the text is empty.
fn kept_on(rt: &HostRuntime, file: File) -> Result<KeptText, u8> {
    match file.metadata() {
        Ok(looks) => {
            if looks.len() > 0 {
                return text_in(rt, file);
            }
        }
        Err(_) => return Err(8),
    }
    Ok(KeptText {
        text: Vec::new(rt.alloc()),
        digest: first_digest(),
        end: 16,
    })
}

// How many bytes are kept on a file, and its digest.
fn count(rt: &HostRuntime, path: &str) -> Result<u8, u8> {
    let file = open_file(rt, path)?;
    lock(rt, &file)?;
    let kept = kept_on(rt, file)?;
    let mut told = StdSink::over(rt.stdout());
    match put_kept(kept.text.len(), &kept.digest, &mut told) {
        Ok(()) => Ok(0),
        Err(_) => Ok(5),
    }
}

// What is kept on a file.
fn show(rt: &HostRuntime, path: &str) -> Result<u8, u8> {
    let kept = kept_on(rt, open_file(rt, path)?)?;
    let mut told = StdSink::over(rt.stdout());
    match put_all(&mut told, &kept.text) {
        Ok(()) => Ok(0),
        Err(_) => Ok(5),
    }
}

// The status of either end.
fn either(ended: Result<u8, u8>) -> u8 {
    match ended {
        Ok(status) => status,
        Err(status) => status,
    }
}

/// Tells how many bytes are kept on the file at this path, and the digest of the last frame. The file is locked meanwhile.
pub(crate) fn count_file(rt: &HostRuntime, path: &str) -> u8 {
    either(count(rt, path))
}

/// Writes what is kept on the file at this path.
pub(crate) fn show_file(rt: &HostRuntime, path: &str) -> u8 {
    either(show(rt, path))
}
