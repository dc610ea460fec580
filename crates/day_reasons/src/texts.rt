//! The texts of values in a line.
ghost use Rattle.std.specs.Prelude.{◌≡◌, ◌<◌, ◌+◌, ◌++◌, ◌∷◌, []};
ghost use Rattle.arrayvec.specs.ArrayString.{array_string_len};
ghost use Rattle.cash_amounts.specs.AmountText.{amount_text};
ghost use Rattle.period_calendar.specs.MomentTexts.{time_text};
ghost use Rattle.day_reasons.specs.Reasons.{name_of, phase_word};
ghost use Rattle.day_reasons.specs.Told.{id_of, item_head};
ghost use Rattle.day_reasons.specs.Wrong.{head_at};

use arrayvec::ArrayString;
use cash_amounts::{AccountNumber, EntryNumber, LinePlace, MessageNumber, Seconds};
use itoa::Buffer;
use rule_book::parts::{account, message};
use rule_book::{Phase, Setting};

// ---- words

/// The word for how far a message has come.
pub fn phase_word(phase: Phase) -> &'static [u8]
    ensures { result.now ≡ phase_word phase }
{
    match phase {
        Phase::Untaken => b"UNTAKEN",
        Phase::Rejected => b"REJECTED",
        Phase::Closed => b"CLOSED",
        Phase::Revoked => b"REVOKED",
        Phase::Settled => b"SETTLED",
        Phase::Covered => b"COVERED",
        Phase::Answered => b"ANSWERED",
        Phase::Asking => b"ASKING",
        Phase::Information => b"INFORMATION",
        Phase::Waiting => b"WAITING",
        Phase::Open => b"OPEN",
        Phase::Overdue => b"OVERDUE",
    }
}

// ---- names

/// The name of an account; nothing where there is none of this number.
pub fn account_name(setting: &Setting, a: AccountNumber) -> &[u8]
    ensures { result.now ≡ name_of setting.now.day a }
{
    match account(&setting.day, a) {
        Some(record) => record.name.as_bytes(),
        None => b"",
    }
}

/// The identification of message n; nothing where there is none.
pub fn message_id(setting: &Setting, n: MessageNumber) -> &[u8]
    ensures { result.now ≡ id_of setting.now.day n }
{
    match message(&setting.day, n) {
        Some(message) => message.id.as_bytes(),
        None => b"",
    }
}

// ---- times and amounts

fn digit(value: u32) -> u8
    requires { value < 10 }
    ensures { result ≡ 48 + value }
{
    b'0' + value as u8
}

/// HH:MM:SS of so many seconds.
pub fn clock_bytes(seconds: Seconds) -> [u8; 8]
    ensures { result ≡ time_text seconds }
{
    let hours = seconds / 3600;
    let minutes = seconds / 60 % 60;
    let rest = seconds % 60;
    [
        digit(hours / 10 % 10),
        digit(hours % 10),
        b':',
        digit(minutes / 10 % 10),
        digit(minutes % 10),
        b':',
        digit(rest / 10 % 10),
        digit(rest % 10),
    ]
}

// Puts one ASCII character at the end of a text that has room for it.
fn push_ascii(text: &mut ArrayString<48>, byte: u8)
    requires ascii { byte < 128 }
    requires room { array_string_len text.old < 48 }
    ensures bytes { text.new.bytes ≡ text.old.bytes ++ byte ∷ [] }
    ensures length { array_string_len text.new ≡ array_string_len text.old + 1 }
{
    text.push(char::from(byte));
}

fn push_digit(text: &mut ArrayString<48>, digit: u128)
    requires digit { digit < 10 }
    requires room { array_string_len text.old < 48 }
    ensures bytes { text.new.bytes ≡ text.old.bytes ++ (48 + digit) ∷ [] }
    ensures length { array_string_len text.new ≡ array_string_len text.old + 1 }
{
    push_ascii(text, b'0' + digit as u8);
}

/// The text of an amount of so many cents.
pub fn amount(cents: u128) -> ArrayString<48>
    ensures { result.bytes ≡ amount_text cents }
{
    let mut text = ArrayString::new();
    text.push_str(Buffer::new().format(cents / 100));
    push_ascii(&mut text, b'.');
    push_digit(&mut text, cents / 10 % 10);
    push_digit(&mut text, cents % 10);
    text
}

// ---- the front of a line

/// The fields in front of a reason of an item.
pub fn item_head(n: MessageNumber, k: EntryNumber) -> ArrayString<48>
    ensures { result.bytes ≡ item_head n k }
{
    let mut text = ArrayString::new();
    text.push_str("Y;");
    text.push_str(Buffer::new().format(n));
    text.push_str(";");
    text.push_str(Buffer::new().format(k));
    text
}

/// The fields in front of what is wrong at a place.
pub fn wrong_head(place: LinePlace) -> ArrayString<48>
    ensures { result.bytes ≡ head_at place }
{
    let mut text = ArrayString::new();
    text.push_str("ILLEGAL;");
    text.push_str(Buffer::new().format(place));
    text
}
