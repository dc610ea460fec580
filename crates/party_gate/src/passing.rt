//! Whose a line is that a day tells.
ghost use Rattle.std.specs.Prelude.{◌≡◌, ◌≤◌, ℕ, length, nat_eq};
ghost use Rattle.std.specs.List.{position};
ghost use Rattle.outside_io.specs.TextLine.{semicolon};
ghost use Rattle.party_gate.specs.Passing.{begins_with_field, behind_field, is_last, is_own, longest_line, whose_is};

/// How what a day tells ends for a party.
#[derive(Clone, Copy, PartialEq, Eq, Debug)]
pub enum Ending {
    /// With the last line.
    Last,
    /// With a line that is the party's, or the last, and longer than one may be; or it is longer than it may be.
    Long,
}

/// Whose a line is.
#[derive(Clone, Copy)]
pub(crate) enum Whose {
    /// Not this party's.
    Others,
    /// This party's.
    Own,
    /// The last one, which is told to each party.
    Last,
}

/// How long a line may be that is passed on, its line feed counted: as much as a pipe takes at once.
pub(crate) const LONGEST_LINE: usize = 4_096;

// Where the first semicolon stands.
fn find_semicolon(text: &[u8]) -> Option<usize>
    ensures { result ≡ position (λ (b : ℕ). nat_eq b semicolon) text.now }
{
    text.iter().position(|b| *b == b';')
}

// What stands behind the first semicolon.
fn behind_field(text: &[u8]) -> &[u8]
    ensures { result.now ≡ behind_field text.now }
{
    match find_semicolon(text) {
        Some(i) => &text[i + 1..],
        None => b"",
    }
}

// Whether the first field of a text is this one, and others stand behind it.
fn begins_with_field(wanted: &[u8], text: &[u8]) -> bool
    ensures { result ≡ begins_with_field wanted.now text.now }
{
    if text.starts_with(wanted) {
        text[wanted.len()..].starts_with(b";")
    } else {
        false
    }
}

// Whether a line is a status message to the party of this name.
fn is_own(name: &[u8], line: &[u8]) -> bool
    ensures { result ≡ is_own name.now line.now }
{
    line.starts_with(b"S;") && begins_with_field(name, behind_field(behind_field(line)))
}

fn is_last(line: &[u8]) -> bool
    ensures { result ≡ is_last line.now }
{
    line.starts_with(b"OK;") || line.starts_with(b"E;")
}

/// Whose a line is, to the party of this name. As much of it is enough as a line may have that is passed on.
pub(crate) fn whose_is(name: &[u8], line: &[u8]) -> Whose
    requires { length line.now ≤ longest_line }
    ensures { result ≡ whose_is name.now line.now }
{
    if is_last(line) {
        Whose::Last
    } else if is_own(name, line) {
        Whose::Own
    } else {
        Whose::Others
    }
}
