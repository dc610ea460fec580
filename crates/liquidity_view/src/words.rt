//! The command line of the program.
ghost use Rattle.std.specs.Prelude.{◌≡◌};
ghost use Rattle.liquidity_view.specs.Requests.{request_named, request_of, request_of_four, request_with};

use cash_amounts::{Name, Words};
use program_answers::number_of;

/// The view that is asked for: of the bank of this name, after each line from one place to another.
#[derive(Drop, Debug, PartialEq, Eq)]
pub struct Request {
    pub name: Name,
    pub first: u32,
    pub last: u32,
}

fn named(name: &str, first: u32, last: u32) -> Option<Request>
    ensures { result ≡ request_named name.now first last }
{
    match Name::read(name.as_bytes()) {
        Some(name) => Some(Request { name, first, last }),
        None => None,
    }
}

fn request_with(name: &str, first: Option<u32>, last: Option<u32>) -> Option<Request>
    ensures { result ≡ request_with name.now first last }
{
    match (first, last) {
        (Some(first), Some(last)) => named(name, first, last),
        _ => None,
    }
}

fn request_of_four(word: &str, name: &str, first: &str, last: &str) -> Option<Request>
    ensures { result ≡ request_of_four word.now name.now first.now last.now }
{
    if word == "view" {
        request_with(
            name,
            number_of(first.as_bytes()),
            number_of(last.as_bytes()),
        )
    } else {
        None
    }
}

/// What a command line asks for; None exactly where the words are no command line. Takes no memory.
pub fn request_of(words: &Words) -> Option<Request>
    ensures { result ≡ request_of words.now }
{
    match words.len() {
        4 => request_of_four(words.word(0), words.word(1), words.word(2), words.word(3)),
        _ => None,
    }
}
