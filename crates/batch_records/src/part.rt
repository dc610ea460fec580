//! Where a day ends in an input.

ghost use Rattle.std.specs.Prelude.{◌≡◌, ◌+◌, ◌-◌, ◌<◌, ◌≤◌, drop, false, length, true, IfSome};
ghost use Rattle.batch_records.specs.DayPart.{begins_with, day_len, end_line_len, is_line_ends, line_end_len, part_len, starts_line};

// Whether the bytes begin with this one.
fn begins_with(b: u8, bytes: &[u8]) -> bool
    ensures { result ≡ begins_with b bytes.now }
{
    match bytes {
        [] => false,
        [c, ..] => *c == b,
    }
}

// How long the line end is at the front of the bytes.
fn line_end_len(bytes: &[u8]) -> Option<usize>
    ensures same { result ≡ line_end_len bytes.now }
    ensures within { IfSome result (λ n. n ≤ length bytes.now) }
{
    match bytes {
        [] => Some(0),
        [10, ..] => Some(1),
        [13, rest @ ..] => {
            if begins_with(10, rest) {
                Some(2)
            } else {
                Some(1)
            }
        }
        _ => None,
    }
}

// How long a line that says END is, with its end, where the bytes begin with one.
#[tactic(auto, unfolding(crate::specs::DayPart::end_line_len))]
fn end_line_len(bytes: &[u8]) -> Option<usize>
    ensures same { result ≡ end_line_len bytes.now }
    ensures within { IfSome result (λ n. n ≤ length bytes.now) }
{
    if !bytes.starts_with(b"END") {
        return None;
    }
    let n = line_end_len(&bytes[3..])?;
    Some(3 + n)
}

// Whether a line starts after this byte.
fn starts_line(c: u8, rest: &[u8]) -> bool
    ensures { result ≡ starts_line c rest.now }
{
    c == 10 || (c == 13 && !begins_with(10, rest))
}

// Where the line ends that a place of an input is in.
fn line_end(input: &[u8], from: usize) -> usize
    requires { from < length input.now }
    ensures behind { from < result }
    ensures within { result ≤ length input.now }
    ensures rest { part_len false (drop from input.now)
        ≡ (result - from) + part_len true (drop result input.now) }
{
    for i in from..input.len() {
        if starts_line(input[i], &input[i + 1..]) {
            return i + 1;
        }
    }
    input.len()
}

// How many bytes of an input belong to its day. Of most lines the front alone is looked at twice.
pub fn day_len(input: &[u8]) -> usize
    ensures same { result ≡ day_len input.now }
    ensures within { result ≤ length input.now }
{
    let mut at = 0;
    while at < input.len() {
        if let Some(n) = end_line_len(&input[at..]) {
            return at + n;
        }
        at = line_end(input, at);
    }
    at
}

/// Whether what follows a day is line ends alone: bytes CR and LF, in any number and order, or nothing.
pub fn is_blank(rest: &[u8]) -> bool
    ensures { result ≡ is_line_ends rest.now }
{
    rest.iter().all(|b| *b == 10 || *b == 13)
}
