//! Times of a day.
ghost use Rattle.std.specs.Prelude.{◌≡◌, ◌≤◌, Some, IfSome};
ghost use Rattle.period_calendar.specs.Times.{clock_time, time_of_text};
ghost use Rattle.period_calendar.specs.MomentTexts.{time_text};

use crate::digits::{push_ascii, push_two_digits, two_digits};
use arrayvec::ArrayString;

/// The end of the day, 24:00:00, in seconds.
pub const MIDNIGHT: u32 = 86_400;

// The seconds of a time of the clock, up to the end of the day.
fn clock_time(hours: u8, minutes: u8, seconds: u8) -> Option<u32>
    ensures { result ≡ clock_time hours minutes seconds }
{
    let total = 3600 * u32::from(hours) + 60 * u32::from(minutes) + u32::from(seconds);
    if minutes < 60 && seconds < 60 && total <= MIDNIGHT {
        Some(total)
    } else {
        None
    }
}

/// The seconds of a text `HH:MM:SS`, from 00:00:00, which is 0, to 24:00:00, which is `MIDNIGHT`.
/// None exactly where the text is no such time.
#[tactic(auto, using(crate::proofs::TimeLemmas::time_places))]
pub fn read_time(text: &[u8]) -> Option<u32>
    ensures value { result ≡ time_of_text text.now }
    ensures one_text { IfSome result (λ seconds. text.now ≡ time_text seconds) }
    ensures within { IfSome result (λ seconds. seconds ≤ MIDNIGHT) }
{
    if text.len() != 8 || text[2] != b':' || text[5] != b':' {
        return None;
    }
    let hours = two_digits(text[0], text[1])?;
    let minutes = two_digits(text[3], text[4])?;
    let seconds = two_digits(text[6], text[7])?;
    clock_time(hours, minutes, seconds)
}

/// The text `HH:MM:SS` of so many seconds, at most `MIDNIGHT`, from which `read_time` gives the number again.
#[tactic(auto, using(crate::proofs::TimeLemmas::time_text_reads))]
pub fn put_time(seconds: u32) -> ArrayString<8>
    requires { seconds ≤ MIDNIGHT }
    ensures text { result.bytes ≡ time_text seconds }
    ensures reads_back { time_of_text result.bytes ≡ Some seconds }
{
    let mut text = ArrayString::new();
    push_two_digits(&mut text, seconds / 3600);
    push_ascii(&mut text, b':');
    push_two_digits(&mut text, seconds / 60 % 60);
    push_ascii(&mut text, b':');
    push_two_digits(&mut text, seconds % 60);
    text
}
