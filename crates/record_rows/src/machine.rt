//! The machine of states that reads records, as `csv` has it: semicolons between fields, quotes round a field that has line ends or
//! semicolons in it.
ghost use Rattle.std.specs.Prelude.{◌≡◌};
ghost use Rattle.csv.specs.Machine.{after_end, in_field, start_field, start_record, step};
ghost use Rattle.record_rows.specs.Machine.{is_between, is_line_end, moves, row_config, state_of};
ghost use Rattle.csv.specs.declared.parser.Terminator.TheVariants as terminators;

/// Where a reader stands in a record.
#[derive(Clone, Copy)]
pub(crate) enum Stage {
    /// Before the first byte of a record.
    Start,
    /// The same, after a carriage return, of which a line feed is part.
    StartBehindReturn,
    /// At the first byte of a field.
    StartField,
    /// In a field without quotes, or after what was in quotes.
    InField,
    /// In quotes.
    InQuotes,
    /// After a quote that closes, or is the first of two.
    BehindQuote,
}

/// What a byte does to a record.
#[derive(Clone, Copy)]
pub(crate) enum Action {
    /// Nothing.
    Skip,
    /// It belongs to the field.
    Copy,
    /// The field ends.
    EndField,
    /// The field ends, and the record with it.
    EndRecord,
}

// Whether a reader stands between two records.
pub(crate) fn is_between(stage: Stage) -> bool
    ensures { result ≡ is_between (state_of stage) }
{
    matches!(stage, Stage::Start | Stage::StartBehindReturn)
}

fn is_line_end(b: u8) -> bool
    ensures { result ≡ is_line_end b }
{
    b == b'\r' || b == b'\n'
}

// Where a byte that ends a line leaves a reader.
fn after_end(b: u8) -> Stage
    ensures { state_of result ≡ after_end terminators.CRLF b }
{
    if b == b'\r' {
        Stage::StartBehindReturn
    } else {
        Stage::Start
    }
}

// A byte that stands in no quotes and is none.
fn in_field(b: u8) -> (Stage, Action)
    ensures { moves result ≡ in_field row_config b }
{
    if b == b';' {
        (Stage::StartField, Action::EndField)
    } else if is_line_end(b) {
        (after_end(b), Action::EndRecord)
    } else {
        (Stage::InField, Action::Copy)
    }
}

fn start_field(b: u8) -> (Stage, Action)
    ensures { moves result ≡ start_field row_config b }
{
    if b == b'"' {
        (Stage::InQuotes, Action::Skip)
    } else {
        in_field(b)
    }
}

fn start_record(b: u8) -> (Stage, Action)
    ensures { moves result ≡ start_record row_config b }
{
    if is_line_end(b) {
        (Stage::Start, Action::Skip)
    } else {
        start_field(b)
    }
}

/// Where a byte leaves a reader, and what it does.
pub(crate) fn step(stage: Stage, b: u8) -> (Stage, Action)
    ensures { moves result ≡ step row_config (state_of stage) b }
{
    match stage {
        Stage::Start => start_record(b),
        Stage::StartBehindReturn => {
            if b == b'\n' {
                (Stage::Start, Action::Skip)
            } else {
                start_record(b)
            }
        }
        Stage::StartField => start_field(b),
        Stage::InField => in_field(b),
        Stage::InQuotes => {
            if b == b'"' {
                (Stage::BehindQuote, Action::Skip)
            } else {
                (Stage::InQuotes, Action::Copy)
            }
        }
        Stage::BehindQuote => {
            if b == b'"' {
                (Stage::InQuotes, Action::Copy)
            } else {
                in_field(b)
            }
        }
    }
}
