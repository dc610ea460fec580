//! What a run that goes on is told first: what the run before it had read, and what it had written.
ghost use Rattle.std.specs.Prelude.{◌≡◌, ℕ, ◌++◌, ◌==◌, ◌<◌, ◌≤◌, ◌^◌, List, bytes_eq, codes, decimal, length};
ghost use Rattle.std.specs.List.{position};
ghost use Rattle.live_day.specs.Beginnings.{CountsFrom, IsBeginning, IsPortion, IsRead, count_in};
ghost use Rattle.live_day.specs.Resumed.{may_begin, number_within};

use itoa::Buffer;
use program_answers::{MAX_INPUT, MAX_LONG_INPUT, are_digits, value_of};

// Whether a number is written so.
fn is_written(value: usize, text: &[u8]) -> bool
    ensures { result ≡ bytes_eq (decimal value) text.now }
{
    let mut digits = Buffer::new();
    digits.format(value).as_bytes() == text
}

// The number of a text that is one, in decimal without a leading zero, and at most so much.
fn number_within(most: usize, text: &[u8]) -> Option<usize>
    requires { most < 10 ^ 9 }
    ensures { result ≡ number_within most text.now }
{
    if text.len() > 9 {
        return None;
    }
    if !are_digits(text) {
        return None;
    }
    let value = value_of(text) as usize;
    if !is_written(value, text) {
        return None;
    }
    if value > most {
        return None;
    }
    Some(value)
}

// A text after a header that counts it.
#[derive(Clone, Copy)]
enum Portion {
    // More has to come before it is whole.
    Short,
    // There is no such header, whatever follows.
    NoHeader,
    // It is whole, from one place up to another.
    Whole { start: usize, end: usize },
}

// Where a line ends.
fn line_end(text: &[u8]) -> Option<usize>
    ensures { result ≡ position (λ b. b == 10) text.now }
{
    text.iter().position(|byte| *byte == 10)
}

// The number after a word, in a line that is a header.
fn count_in(line: &[u8], word: &[u8], most: usize) -> Option<usize>
    requires { most < 10 ^ 9 }
    ensures { result ≡ count_in word.now most line.now }
{
    if !line.starts_with(word) {
        return None;
    }
    number_within(most, &line[word.len()..])
}

// So many bytes of a text, from a place on.
fn counted_from(text: &[u8], start: usize, count: Option<usize>) -> Portion
    requires { start ≤ length text.now }
    ensures { CountsFrom text.now start count result }
{
    let count = match count {
        Some(count) => count,
        None => return Portion::NoHeader,
    };
    if count > text.len() - start {
        return Portion::Short;
    }
    Portion::Whole {
        start,
        end: start + count,
    }
}

// Whether a line that isn't whole yet may still be a header, which begins with this word.
fn may_begin(text: &[u8], word: &[u8], most: usize) -> bool
    requires { most < 10 ^ 9 }
    ensures { (w : List ℕ) → word.now ≡ w ++ codes ";" → result ≡ may_begin w most text.now }
{
    if text.len() <= word.len() {
        return word.starts_with(text);
    }
    count_in(text, word, most).is_some()
}

// The text after a header: a word, which ends with a semicolon, and how many bytes follow the header's line.
fn portion_in(word: &[u8], most: usize, text: &[u8]) -> Portion
    requires { most < 10 ^ 9 }
    ensures { (w : List ℕ) → word.now ≡ w ++ codes ";" → IsPortion w most text.now result }
{
    match line_end(text) {
        Some(end) => counted_from(text, end + 1, count_in(&text[..end], word, most)),
        None if may_begin(text, word, most) => Portion::Short,
        None => Portion::NoHeader,
    }
}

/// What a run that goes on is told first.
#[derive(Clone, Copy)]
pub(crate) enum Beginning {
    /// More has to come before it is whole.
    Short,
    /// A header isn't so, whatever follows.
    NoHeader,
    /// It is whole: what had been read and what had been written stand from one place up to another, and after that the input goes on.
    Whole {
        read: usize,
        read_end: usize,
        written: usize,
        written_end: usize,
    },
}

// Where what had been written stands, after what had been read.
fn behind_read(input: &[u8], read: usize, read_end: usize) -> Beginning
    requires { IsRead input.now read read_end }
    ensures { IsBeginning input.now result }
{
    match portion_in(b"OUTPUT;", MAX_LONG_INPUT, &input[read_end..]) {
        Portion::Short => Beginning::Short,
        Portion::NoHeader => Beginning::NoHeader,
        Portion::Whole { start, end } => Beginning::Whole {
            read,
            read_end,
            written: read_end + start,
            written_end: read_end + end,
        },
    }
}

/// What these bytes tell of the run before.
pub(crate) fn beginning_of(input: &[u8]) -> Beginning
    ensures { IsBeginning input.now result }
{
    match portion_in(b"RECORDS;", MAX_INPUT, input) {
        Portion::Short => Beginning::Short,
        Portion::NoHeader => Beginning::NoHeader,
        Portion::Whole { start, end } => behind_read(input, start, end),
    }
}
