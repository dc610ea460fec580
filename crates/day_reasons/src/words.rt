//! The command line of the program.
ghost use Rattle.std.specs.Prelude.{◌≡◌, option_map};
ghost use Rattle.program_answers.specs.Numbers.{number_of};
ghost use Rattle.day_reasons.specs.Requests.{request_of, up_to};

use cash_amounts::Words;
use program_answers::number_of;

/// Over which lines is told: the first ones, up to this place, or all of them where there is none.
#[derive(Drop, Debug, PartialEq, Eq)]
pub struct Request {
    pub place: Option<u32>,
}

fn request_up_to(place: &str) -> Option<Request>
    ensures { result ≡ option_map up_to (number_of place.now) }
{
    match number_of(place.as_bytes()) {
        Some(place) => Some(Request { place: Some(place) }),
        None => None,
    }
}

/// What a command line asks for: no word or one place of one to seven digits; None exactly where the words are neither. Takes no
/// memory.
pub fn request_of(words: &Words) -> Option<Request>
    ensures { result ≡ request_of words.now }
{
    match words.len() {
        0 => Some(Request { place: None }),
        1 => request_up_to(words.word(0)),
        _ => None,
    }
}
