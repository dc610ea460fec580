//! The command line of the program.
ghost use Rattle.std.specs.Prelude.{◌≡◌};
ghost use Rattle.durable_day.specs.Requests.{request_of, request_of_one, request_of_two, run_with};

use cash_amounts::Words;
use program_answers::number_of;

/// What is asked for.
#[derive(Clone, Copy, Debug, PartialEq, Eq)]
pub enum Request {
    /// The day goes on to its end on a disk of which so many calls pass.
    Run { calls: u32 },
    /// The journal of a store.
    Show,
}

fn run_with(calls: Option<u32>) -> Option<Request>
    ensures { result ≡ run_with calls }
{
    match calls {
        Some(calls) => Some(Request::Run { calls }),
        None => None,
    }
}

fn request_of_one(word: &str) -> Option<Request>
    ensures { result ≡ request_of_one word.now }
{
    if word == "show" {
        Some(Request::Show)
    } else {
        None
    }
}

fn request_of_two(word: &str, number: &str) -> Option<Request>
    ensures { result ≡ request_of_two word.now number.now }
{
    if word == "run" {
        run_with(number_of(number.as_bytes()))
    } else {
        None
    }
}

/// What a command line asks for; None exactly where the words are no command line. Takes no memory.
pub fn request_of(words: &Words) -> Option<Request>
    ensures { result ≡ request_of words.now }
{
    match words.len() {
        1 => request_of_one(words.word(0)),
        2 => request_of_two(words.word(0), words.word(1)),
        _ => None,
    }
}
