//! The texts of counts.

ghost use Rattle.std.specs.Prelude.{◌≡◌, ◌<◌};
ghost use Rattle.batch_records.specs.CountText.{count_in, count_of, with_digits};

// The number of digits that go on from this digit, where they are a count's.
fn with_digits(first: u32, text: &[u8]) -> Option<u32>
    requires { first < 10 }
    ensures { result ≡ with_digits first text.now }
{
    let mut n = first;
    for c in text {
        if n == 0 || 1_000_000 <= n {
            return None;
        }
        if *c < b'0' || b'9' < *c {
            return None;
        }
        n = 10 * n + u32::from(*c - b'0');
    }
    Some(n)
}

// The count of a text, where it is one's: digits without a leading zero or the single 0, at most seven.
#[tactic(auto, unfolding(crate::specs::CountText::count_of))]
pub fn count_of(text: &[u8]) -> Option<u32>
    ensures { result ≡ count_of text.now }
{
    match text {
        [c @ b'0'..=b'9', rest @ ..] => with_digits(u32::from(*c - b'0'), rest),
        _ => None,
    }
}

// The same, and 0 where it is none.
pub fn count_in(text: &[u8]) -> u32
    ensures { result ≡ count_in text.now }
{
    count_of(text).unwrap_or(0)
}
