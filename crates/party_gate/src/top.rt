//! The top call: from the words and the port to the status.
ghost use Rattle.std.specs.Prelude.{◌≡◌, ◌⊎◌};
ghost use Rattle.party_gate.specs.Out.{out_program};
ghost use Rattle.party_gate.specs.Promises.{KeepsPromises, party_named, request_of, request_of_two, usage_text};
ghost use Rattle.outside_io.specs.Pieces.{HasPut, IsCutShort};
ghost use Rattle.program_answers.specs.LivePrograms.{LivePromises};

use crate::filter::LineFilter;
use crate::party::PartyName;
use cash_amounts::{Name, Words};
use outside_io::{Port, Sink, put_all};
use program_answers::listen;
use std::marker::Brand;

fn party_named(name: &str) -> Option<Name>
    ensures { result ≡ party_named name.now }
{
    Name::read(name.as_bytes())
}

fn request_of_two(word: &str, name: &str) -> Option<Name>
    ensures { result ≡ request_of_two word.now name.now }
{
    if word == "out" {
        party_named(name)
    } else {
        None
    }
}

// The party that the words name.
fn request_of(words: &Words) -> Option<Name>
    ensures { result ≡ request_of words.now }
{
    match words.len() {
        2 => request_of_two(words.word(0), words.word(1)),
        _ => None,
    }
}

// Refuses words that are no command line.
fn refuse_words<S: Sink>(sink: &mut S) -> u8
    ensures { ((result ≡ 2) × HasPut (S.state sink.old) (S.state sink.new) usage_text)
        ⊎ ((result ≡ 5) × IsCutShort (S.state sink.old) (S.state sink.new) usage_text) }
{
    match put_all(sink, b"usage: party_gate out NAME\n") {
        Ok(()) => 2,
        Err(_) => 5,
    }
}

// Passes on to a party what a day tells it.
fn pass_on<N: PartyName, P: Port>(name: Name, port: &mut P) -> u8
    requires { name ≡ N.name }
    ensures { LivePromises (out_program N.name) (record {
      status = result;
      port = P.state port.old;
      port_after = P.state port.new;
    }) }
{
    listen(LineFilter::<N>::new(name), port)
}

/// Does all that the program does, and answers its status.
///
/// - 0: what was told has ended, with its last line or without;
/// - 2: the words are no command line, and the usage line was written; nothing is read for them;
/// - 4: a read failed; what the bytes before it call for was passed on;
/// - 5: a write failed, and nothing was written after it: a front of what was due was passed on;
/// - 7: a line that was to be passed on is longer than 4,096 bytes; what stands before it was passed on.
pub fn gate<P: Port>(words: &Words, port: &mut P) -> u8
    ensures { KeepsPromises words.now (record {
      status = result;
      port = P.state port.old;
      port_after = P.state port.new;
    }) }
{
    match request_of(words) {
        Some(name) => pass_on::<Brand, P>(name, port),
        None => refuse_words(port),
    }
}
