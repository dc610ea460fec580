//! Where the line stands in which an input is, and whether it is END and nothing else.
ghost use Rattle.std.specs.Prelude.{◌≡◌};
ghost use Rattle.record_rows.specs.Lines.{line_after, next_line};
ghost use Rattle.record_rows.specs.Machine.{is_line_end};

/// What a line has so far, by raw bytes, in quotes or not.
#[derive(Clone, Copy, PartialEq, Eq, Debug)]
pub enum Line {
    /// Nothing.
    Begun,
    /// E.
    HasE,
    /// EN.
    HasEN,
    /// END, and nothing else.
    HasEND,
    /// Anything else.
    Other,
    /// A line that is END and nothing else has come with its line end.
    Over,
}

fn is_line_end(b: u8) -> bool
    ensures { result ≡ is_line_end b }
{
    b == b'\r' || b == b'\n'
}

// The line after a byte that ends no line: another one where it is the byte that is wanted.
fn next(wanted: u8, reached: Line, b: u8) -> Line
    ensures { result ≡ next_line wanted reached b }
{
    if is_line_end(b) {
        Line::Begun
    } else if b == wanted {
        reached
    } else {
        Line::Other
    }
}

// The line after a byte.
pub(crate) fn line_after(line: Line, b: u8) -> Line
    ensures { result ≡ line_after line b }
{
    match line {
        Line::Begun => next(b'E', Line::HasE, b),
        Line::HasE => next(b'N', Line::HasEN, b),
        Line::HasEN => next(b'D', Line::HasEND, b),
        Line::HasEND => {
            if is_line_end(b) {
                Line::Over
            } else {
                Line::Other
            }
        }
        Line::Other => {
            if is_line_end(b) {
                Line::Begun
            } else {
                Line::Other
            }
        }
        Line::Over => Line::Over,
    }
}
