//! Numbers in digits.
ghost use Rattle.std.specs.Prelude.{◌≡◌, ◌≤◌, length, true};
ghost use Rattle.std.specs.List.{list_all};
ghost use Rattle.std.specs.Str.Parse.{digits_value};
ghost use Rattle.cash_amounts.specs.Names.{is_digit};
ghost use Rattle.program_answers.specs.Numbers.{number_of};

fn is_digit(byte: u8) -> bool
    ensures { result ≡ is_digit byte }
{
    (48..=57).contains(&byte)
}

/// Whether a text has digits alone.
pub fn are_digits(text: &[u8]) -> bool
    ensures { result ≡ list_all is_digit text.now }
{
    text.iter().all(|byte| is_digit(*byte))
}

/// The number of up to nine digits, where zeros may stand in front.
pub fn value_of(text: &[u8]) -> u32
    requires digits { list_all is_digit text.now ≡ true }
    requires short { length text.now ≤ 9 }
    ensures { result ≡ digits_value 10 text.now }
{
    let mut value = 0;
    for byte in text {
        value = value * 10 + u32::from(*byte - 48);
    }
    value
}

/// The number of one to seven digits, where zeros may stand in front; None for any other text.
pub fn number_of(text: &[u8]) -> Option<u32>
    ensures { result ≡ number_of text.now }
{
    if text.is_empty() || text.len() > 7 || !are_digits(text) {
        return None;
    }
    Some(value_of(text))
}
