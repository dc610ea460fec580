//! Inputs and outputs that are too large for a file of cases.
use crate::case::Case;
use anyhow::Result;
use std::alloc::{AllocError, Global};
use std::fmt::Write;

/// As many bytes as an input may have, and as many messages as a day may have.
const MOST_BYTES: usize = 134_217_728;

const MOST_MESSAGES: u32 = 100_000;

const ACCOUNTS: &[u8] = b"DAY;2025-06-02\nACC;X1;DCA;BANKA;;100.00\nACC;Y1;DCA;BANKB;;0.00\n";

const PAYMENT: &[u8] = b"PAY;BANKA;P1;N;X1;Y1;60.00\n";

// A day of two accounts and so many payments, and what follows it.
fn day_of(alloc: Global, payments: u32, rest: &[u8]) -> Result<Vec<u8>, AllocError> {
    let mut day = ACCOUNTS.to_vec(alloc)?;
    for _ in 0..payments {
        day.extend_from_slice(PAYMENT)?;
    }
    day.extend_from_slice(b"END\n")?;
    day.extend_from_slice(rest)?;
    Ok(day)
}

// A day of one payment, with line ends after it up to a length.
fn long_day(alloc: Global, length: usize) -> Result<Vec<u8>, AllocError> {
    let mut day = day_of(alloc, 1, b"")?;
    let rest = length.saturating_sub(day.len());
    day.extend_from_slice(vec![in alloc; b'\n'; rest]?.as_slice())?;
    Ok(day)
}

fn checked(
    alloc: Global,
    about: &str,
    input: Vec<u8>,
    status: u8,
    text: &str,
) -> Result<Case, AllocError> {
    let mut case = Case::new(alloc);
    case.about.push_str(about)?;
    case.words.push_str("check")?;
    case.input = input;
    case.status = status;
    case.text.extend_from_slice(text.as_bytes())?;
    Ok(case)
}

/// Days at the limits of messages and bytes, and past them.
pub fn large_cases(alloc: Global) -> Result<Vec<Case>> {
    let most = day_of(alloc, MOST_MESSAGES, b"")?;
    let followed = day_of(alloc, MOST_MESSAGES, b"X\n")?;
    let more = day_of(alloc, MOST_MESSAGES + 1, b"")?;
    let longest = long_day(alloc, MOST_BYTES)?;
    let longer = long_day(alloc, MOST_BYTES + 1)?;
    let mut cases = Vec::new(alloc);
    for (about, input, status, text) in [
        ("as many messages as may be", most, 0, "OK;100000\n"),
        (
            "and something behind the last record",
            followed,
            3,
            "E;100005;PLACE\n",
        ),
        ("a message more", more, 3, "E;100004;LIMIT\n"),
        ("as many bytes as may be", longest, 0, "OK;1\n"),
        ("a byte more", longer, 7, "E;0;SIZE\n"),
    ] {
        cases
            .push(checked(alloc, about, input, status, text)?)
            .map_err(AllocError::from)?;
    }
    Ok(cases)
}

/// How many entries the batch of the long output has.
const LONG_ENTRIES: u32 = 500;

// A batch of E whose entries are of a cent each, and all covered.
fn long_batch(alloc: Global) -> Result<String, AllocError> {
    let mut day = String::new(alloc);
    day.push_str("DAY;2025-06-02\nAS;CH1;E\nACC;X1;DCA;BANKA;;5.00\nACC;Y1;DCA;BANKB;;0.00\n")?;
    day.push_str("BAT;CH1;B1;E;;;500;5.00\n")?;
    for _ in 0..LONG_ENTRIES {
        day.push_str("ENT;X1;Y1;0.01\n")?;
    }
    day.push_str("END\n")?;
    Ok(day)
}

// The lines of its journal.
fn long_journal(text: &mut String) -> Result<(), AllocError> {
    text.push_str("J;1;IN;1;0;OK;0\n")?;
    for entry in 1..LONG_ENTRIES + 1 {
        write!(text, "J;{};BOOK;1;{entry};OK;1\nM;1;2;0.01\n", entry + 1)?;
    }
    text.push_str("J;502;TIME;0;86400;OK;0\nJ;503;END;0;0;OK;0\n")
}

// The status messages.
fn long_statuses(text: &mut String) -> Result<(), AllocError> {
    text.push_str("S;1;CH1;ACPT;1;CH1;B1;0;OK\n")?;
    for place in 2..LONG_ENTRIES + 2 {
        write!(
            text,
            "S;{place};BANKA;DBIT;X1;0.01\nS;{place};BANKB;CRDT;Y1;0.01\n"
        )?;
    }
    text.push_str("S;501;CH1;SETL;1;CH1;B1;0;OK\n")
}

// A day whose output takes three pieces to write.
fn long_output(alloc: Global) -> Result<Case, AllocError> {
    let mut text = String::new(alloc);
    long_journal(&mut text)?;
    long_statuses(&mut text)?;
    text.push_str("B;X1;0.00\nB;Y1;5.00\nOK;503\n")?;
    let mut case = Case::new(alloc);
    case.about.push_str("an output of three pieces")?;
    case.words.push_str("settle --workers 0")?;
    case.input.extend_from_slice(long_batch(alloc)?.as_bytes())?;
    case.text.extend_from_slice(text.as_bytes())?;
    Ok(case)
}

/// Days with long outputs.
pub fn long_cases(alloc: Global) -> Result<Vec<Case>> {
    let mut cases = Vec::new(alloc);
    cases.push(long_output(alloc)?).map_err(AllocError::from)?;
    Ok(cases)
}
