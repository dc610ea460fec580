//! The table of inputs that are no day.
ghost use Rattle.std.specs.Prelude.{◌<◌, IfSome};

use crate::case::Case;
use anyhow::{Result, bail};
use std::alloc::{AllocError, Global};

/// The status of a refusal.
const REFUSED: u8 = 3;

fn hex_value(digit: u8) -> Option<u8>
    ensures { IfSome result (λ value. value < 16) }
{
    match digit {
        b'0'..=b'9' => Some(digit - b'0'),
        b'a'..=b'f' => Some(digit - b'a' + 10),
        _ => None,
    }
}

fn hex_byte(high: u8, low: u8) -> Option<u8> {
    Some(hex_value(high)? * 16 + hex_value(low)?)
}

// Appends what stands after a backslash: n and r are line ends, and x with two digits is a byte.
fn push_escaped(bytes: &mut Vec<u8>, piece: &[u8]) -> Result<()> {
    let (byte, rest) = match piece {
        [b'n', rest @ ..] => (Some(b'\n'), rest),
        [b'r', rest @ ..] => (Some(b'\r'), rest),
        [b'x', high, low, rest @ ..] => (hex_byte(*high, *low), rest),
        _ => (None, piece),
    };
    let Some(byte) = byte else {
        bail!("there is no such escape");
    };
    bytes.push(byte)?;
    bytes.extend_from_slice(rest)?;
    Ok(())
}

// The bytes of a text with escapes.
fn unescaped(alloc: Global, text: &str) -> Result<Vec<u8>> {
    let mut pieces = text.split('\\');
    let mut bytes = Vec::new(alloc);
    if let Some(first) = pieces.next() {
        bytes.extend_from_slice(first.as_bytes())?;
    }
    for piece in pieces {
        push_escaped(&mut bytes, piece.as_bytes())?;
    }
    Ok(bytes)
}

// A row of the table: what is written, and after a space the input.
fn refusal(alloc: Global, row: &str, about: &str) -> Result<Case> {
    let (text, input) = row.split_once(' ').unwrap_or((row, ""));
    let mut case = Case::new(alloc);
    case.about.push_str(about)?;
    case.words.push_str("settle --workers 0")?;
    case.input = unescaped(alloc, input)?;
    case.status = REFUSED;
    case.text.extend_from_slice(text.as_bytes())?;
    case.text.push(b'\n')?;
    Ok(case)
}

/// The cases of the table. Each shows what the last comment above it says.
pub fn refusals_of(alloc: Global, file: &str) -> Result<Vec<Case>> {
    let mut cases = Vec::new(alloc);
    let mut about = String::new(alloc);
    for line in file.split('\n') {
        if let Some(comment) = line.strip_prefix("#") {
            about = String::from_str(alloc, comment)?;
        } else if line.starts_with("E;") {
            cases
                .push(refusal(alloc, line, about.as_str())?)
                .map_err(AllocError::from)?;
        } else if !line.is_empty() {
            bail!("no row of the table: {line}");
        }
    }
    Ok(cases)
}
