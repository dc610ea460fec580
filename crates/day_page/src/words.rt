//! The command line of the program.
ghost use Rattle.std.specs.Prelude.{◌≡◌};
ghost use Rattle.day_page.specs.Requests.{is_partys, page_named, request_of, request_of_one, request_of_two, whole_day};

use cash_amounts::{Name, Words};

/// Whose page is asked for: that of the party of this name, or of the whole day.
#[derive(Drop, Debug, PartialEq, Eq)]
pub struct Request {
    pub party: Option<Name>,
}

fn whole_day() -> Request
    ensures { result ≡ whole_day }
{
    Request { party: None }
}

fn page_named(name: &str) -> Option<Request>
    ensures { result ≡ page_named name.now }
{
    match Name::read(name.as_bytes()) {
        Some(name) => Some(Request { party: Some(name) }),
        None => None,
    }
}

fn request_of_one(word: &str) -> Option<Request>
    ensures { result ≡ request_of_one word.now }
{
    if word == "page" {
        Some(whole_day())
    } else {
        None
    }
}

fn request_of_two(word: &str, name: &str) -> Option<Request>
    ensures { result ≡ request_of_two word.now name.now }
{
    if word == "page" {
        page_named(name)
    } else {
        None
    }
}

/// What a command line asks for; None exactly where the words are no command line. Takes no memory.
pub fn request_of(words: &Words) -> Option<Request>
    ensures { result ≡ request_of words.now }
{
    match words.len() {
        1 => request_of_one(words.word(0)),
        2 => request_of_two(words.word(0), words.word(1)),
        _ => None,
    }
}

/// Whether a name is that of the party whose page is asked for; on the page of the whole day each name is.
pub fn is_partys(request: &Request, name: &Name) -> bool
    ensures { result ≡ is_partys request.now name.now }
{
    match &request.party {
        Some(party) => *name == *party,
        None => true,
    }
}
