//! Pieces of text one after another, and the texts of values on a page.
ghost use Rattle.std.specs.Prelude.{◌≡◌, ◌<◌, ◌≤◌, ◌+◌, ◌++◌, ◌∷◌, [], map, if◌then◌else◌};
ghost use Rattle.std.specs.List.{flat_map};
ghost use Rattle.arrayvec.specs.ArrayString.{array_string_len};
ghost use Rattle.cash_amounts.specs.AmountText.{amount_text};
ghost use Rattle.outside_io.specs.Calls.{Puts};
ghost use Rattle.day_page.specs.Markup.{clock_text, id_of, markup, name_of, sender_of, x_of, y_of};

use arrayvec::ArrayString;
use cash_amounts::{AccountNumber, MessageNumber, Seconds};
use itoa::Buffer;
use outside_io::{Sink, WriteFault, put_all};
use rule_book::Setting;
use rule_book::parts::{account, message};

fn put_each<S: Sink>(sink: &mut S, pieces: &[&[u8]]) -> Result<(), WriteFault>
    ensures { Puts (S.state sink.old) (S.state sink.new) (flat_map (λ piece. piece.now) pieces.now)
        result }
{
    for piece in pieces {
        put_all(sink, piece)?;
    }
    Ok(())
}

/// Writes pieces of text, one after another.
pub fn put_pieces<S: Sink>(sink: &mut S, pieces: &[&[u8]]) -> Result<(), WriteFault>
    ensures { Puts (S.state sink.old) (S.state sink.new)
        (markup (map (λ piece. piece.now) pieces.now)) result }
{
    put_each(sink, pieces)
}

/// Writes them where the test holds.
pub fn put_if<S: Sink>(sink: &mut S, test: bool, pieces: &[&[u8]]) -> Result<(), WriteFault>
    ensures { Puts (S.state sink.old) (S.state sink.new)
        (if test then markup (map (λ piece. piece.now) pieces.now) else []) result }
{
    if test {
        put_pieces(sink, pieces)
    } else {
        Ok(())
    }
}

fn digit(value: u32) -> u8
    requires { value < 10 }
    ensures { result ≡ 48 + value }
{
    b'0' + value as u8
}

/// HH:MM:SS of so many seconds.
#[tactic(auto, unfolding(crate::specs::Markup::clock_text))]
pub fn clock_bytes(seconds: Seconds) -> [u8; 8]
    ensures { result ≡ clock_text seconds }
{
    [
        digit(seconds / 36000 % 10),
        digit(seconds / 3600 % 10),
        b':',
        digit(seconds / 600 % 6),
        digit(seconds / 60 % 10),
        b':',
        digit(seconds / 10 % 6),
        digit(seconds % 10),
    ]
}

// Puts one ASCII character at the end of a text that has room for it.
fn push_ascii(text: &mut ArrayString<48>, byte: u8)
    requires ascii { byte < 128 }
    requires room { array_string_len text.old < 48 }
    ensures bytes { text.new.bytes ≡ text.old.bytes ++ byte ∷ [] }
    ensures length { array_string_len text.new ≡ array_string_len text.old + 1 }
{
    text.push(char::from(byte));
}

fn push_digit(text: &mut ArrayString<48>, digit: u128)
    requires digit { digit < 10 }
    requires room { array_string_len text.old < 48 }
    ensures bytes { text.new.bytes ≡ text.old.bytes ++ (48 + digit) ∷ [] }
    ensures length { array_string_len text.new ≡ array_string_len text.old + 1 }
{
    push_ascii(text, b'0' + digit as u8);
}

/// The text of an amount of so many cents.
pub fn amount(cents: u128) -> ArrayString<48>
    ensures { result.bytes ≡ amount_text cents }
{
    let mut text = ArrayString::new();
    text.push_str(Buffer::new().format(cents / 100));
    push_ascii(&mut text, b'.');
    push_digit(&mut text, cents / 10 % 10);
    push_digit(&mut text, cents % 10);
    text
}

// ---- names

/// The name of an account; nothing where there is none.
pub fn account_name(setting: &Setting, a: AccountNumber) -> &[u8]
    ensures { result.now ≡ name_of setting.now.day a }
{
    match account(&setting.day, a) {
        Some(record) => record.name.as_bytes(),
        None => b"",
    }
}

/// The sender of message n; nothing where there is none.
pub fn sender_name(setting: &Setting, n: MessageNumber) -> &[u8]
    ensures { result.now ≡ sender_of setting.now.day n }
{
    match message(&setting.day, n) {
        Some(message) => message.sender.as_bytes(),
        None => b"",
    }
}

/// The identification of message n; nothing where there is none.
pub fn message_id(setting: &Setting, n: MessageNumber) -> &[u8]
    ensures { result.now ≡ id_of setting.now.day n }
{
    match message(&setting.day, n) {
        Some(message) => message.id.as_bytes(),
        None => b"",
    }
}

// ---- places in a picture

/// Where a time of the clock stands in a picture.
#[tactic(auto, unfolding(crate::specs::Markup::x_of))]
pub fn x_of(clock: Seconds) -> u32
    ensures { result ≡ x_of clock }
{
    60 + clock / 100
}

/// Where an amount stands in a picture whose greatest amount is `top`.
#[tactic(auto, unfolding(crate::specs::Markup::y_of))]
pub fn y_of(top: u128, cents: u128) -> u128
    ensures { result ≡ y_of top cents }
{
    170u128.saturating_sub(cents / (top / 160 + 1))
}
