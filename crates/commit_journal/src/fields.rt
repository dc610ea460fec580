//! The fields of texts: a field ends with a mark, and is read from the front of some bytes. Nothing here takes memory.
ghost use Rattle.std.specs.Prelude.{◌≡◌, ◌==◌, ◌&&◌, ℕ, ◌<◌, ◌^◌, decimal, Some, None, option_map, bytes_eq, nat_le};
ghost use Rattle.std.specs.List.{position};
ghost use Rattle.outside_io.specs.TextLine.{semicolon};
ghost use Rattle.commit_journal.specs.Text.{code_text};
ghost use Rattle.commit_journal.specs.FieldGrammar.{cut, read_field, read_number, read_amount, read_code, after_word};

use crate::line::Code;
use cash_amounts::{Cents, read_cents};
use itoa::Buffer;

const CODES: [Code; 22] = [
    Code::Ok,
    Code::Du,
    Code::Us,
    Code::Pr,
    Code::Ct,
    Code::Sm,
    Code::Nz,
    Code::En,
    Code::Ti,
    Code::Cy,
    Code::Ac,
    Code::Lk,
    Code::Nc,
    Code::Bt,
    Code::Ph,
    Code::Np,
    Code::Pe,
    Code::Ce,
    Code::Ed,
    Code::Gn,
    Code::Gs,
    Code::Ge,
];

// Where the first mark stands.
fn find_mark(input: &[u8], mark: u8) -> Option<usize>
    ensures { result ≡ position (λ b. b == mark) input.now }
{
    input.iter().position(|b| *b == mark)
}

/// What stands before the first mark, and what stands after it. None exactly where there is no such mark.
#[tactic(auto, unfolding(crate::specs::FieldGrammar::cut))]
pub fn cut(input: &[u8], mark: u8) -> Option<(&[u8], &[u8])>
    ensures { option_map (λ r. (r.0.now, r.1.now)) result ≡ cut mark input.now }
{
    match find_mark(input, mark) {
        Some(end) => Some((&input[..end], &input[end + 1..])),
        None => None,
    }
}

// The number of a text that is one's, and for any other text any number or none.
fn parsed(text: &[u8]) -> Option<u32>
    ensures { (n : ℕ) → n < 2 ^ 32 → text.now ≡ decimal n → result ≡ Some n }
{
    let Ok(text) = std::str::from_utf8(text) else {
        return None;
    };
    match text.parse::<u32>() {
        Ok(n) => Some(n),
        Err(_) => None,
    }
}

// Whether the number is from low to high, and this its text.
fn fits(text: &[u8], n: u32, low: u32, high: u32) -> bool
    ensures { result ≡ (bytes_eq (decimal n) text.now && nat_le low n && nat_le n high) }
{
    let mut digits = Buffer::new();
    digits.format(n).as_bytes() == text && low <= n && n <= high
}

/// The number from low to high that a text spells, without a sign or a leading zero. None exactly where it spells no such
/// number.
pub fn number(text: &[u8], low: u32, high: u32) -> Option<u32>
    ensures { result ≡ read_number low high text.now }
{
    let Some(n) = parsed(text) else {
        return None;
    };
    if fits(text, n, low, high) {
        Some(n)
    } else {
        None
    }
}

/// The amount, other than 0, that a text spells. None exactly where it spells no such amount.
pub fn amount(text: &[u8]) -> Option<Cents>
    ensures { result ≡ read_amount text.now }
{
    let Ok(cents) = read_cents(text) else {
        return None;
    };
    if cents.get() == 0 {
        return None;
    }
    Some(cents)
}

fn is_code(code: Code, text: &[u8]) -> bool
    ensures { result ≡ bytes_eq (code_text code) text.now }
{
    code.text() == text
}

/// The code whose word a text is. None exactly where it is the word of none.
#[tactic(auto, unfolding(crate::specs::FieldGrammar::read_code))]
pub fn code(text: &[u8]) -> Option<Code>
    ensures { result ≡ read_code text.now }
{
    CODES.iter().copied().find(|code| is_code(*code, text))
}

/// What stands after a word and its semicolon. None exactly where the bytes don't begin with them.
#[tactic(auto, unfolding(crate::specs::FieldGrammar::after_word))]
pub fn after_word<'a>(word: &[u8], input: &'a [u8]) -> Option<&'a [u8]>
    ensures { option_map (λ r. r.now) result ≡ after_word word.now input.now }
{
    let (field, rest) = cut(input, b';')?;
    if field == word { Some(rest) } else { None }
}

/// A number from low to high that ends with a mark, and what stands after it. None exactly where the bytes begin with no
/// such number and mark.
pub fn number_field(input: &[u8], mark: u8, low: u32, high: u32) -> Option<(u32, &[u8])>
    ensures { option_map (λ r. (r.0, r.1.now)) result
        ≡ read_field mark (read_number low high) input.now }
{
    let (field, rest) = cut(input, mark)?;
    let n = number(field, low, high)?;
    Some((n, rest))
}

/// A code that ends with a semicolon, and what stands after it. None exactly where the bytes begin with no code's word and
/// semicolon.
pub fn code_field(input: &[u8]) -> Option<(Code, &[u8])>
    ensures { option_map (λ r. (r.0, r.1.now)) result ≡ read_field semicolon read_code input.now }
{
    let (field, rest) = cut(input, b';')?;
    let code = code(field)?;
    Some((code, rest))
}
