//! Numbers with a fixed number of decimal digits.
ghost use Rattle.std.specs.Prelude.{◌≡◌, ◌+◌, ◌<◌, ◌≤◌, [], ◌∷◌, ◌++◌, IfSome};
ghost use Rattle.arrayvec.specs.ArrayString.{array_string_len};
ghost use Rattle.period_calendar.specs.Digits.{two_digits, four_digits};
ghost use Rattle.period_calendar.specs.MomentTexts.{two_digits_text};

use arrayvec::ArrayString;

// The number of two digits.
pub(crate) fn two_digits(tens: u8, units: u8) -> Option<u8>
    ensures value { result ≡ two_digits tens units }
    ensures small { IfSome result (λ number. number ≤ 99) }
{
    if tens.is_ascii_digit() && units.is_ascii_digit() {
        Some(10 * (tens - b'0') + (units - b'0'))
    } else {
        None
    }
}

// The number of four digits.
pub(crate) fn four_digits(thousands: u8, hundreds: u8, tens: u8, units: u8) -> Option<u16>
    ensures value { result ≡ four_digits thousands hundreds tens units }
    ensures small { IfSome result (λ number. number ≤ 9999) }
{
    let front = two_digits(thousands, hundreds)?;
    let back = two_digits(tens, units)?;
    Some(100 * u16::from(front) + u16::from(back))
}

// Puts one ASCII character at the end of a text that has room for it.
pub(crate) fn push_ascii<const N: usize>(text: &mut ArrayString<N>, byte: u8)
    requires ascii { byte < 128 }
    requires room { array_string_len text.old < N }
    ensures bytes { text.new.bytes ≡ text.old.bytes ++ byte ∷ [] }
    ensures length { array_string_len text.new ≡ array_string_len text.old + 1 }
{
    text.push(char::from(byte));
}

// Puts the last two digits of a number at the end of a text that has room for them.
pub(crate) fn push_two_digits<const N: usize>(text: &mut ArrayString<N>, number: u32)
    requires { array_string_len text.old + 2 ≤ N }
    ensures bytes { text.new.bytes ≡ text.old.bytes ++ two_digits_text number }
    ensures length { array_string_len text.new ≡ array_string_len text.old + 2 }
{
    push_ascii(text, b'0' + (number / 10 % 10) as u8);
    push_ascii(text, b'0' + (number % 10) as u8);
}
