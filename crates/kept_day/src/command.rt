//! What the words of a command line ask for.
ghost use Rattle.std.specs.Prelude.{◌≡◌, ◌<◌, ◌^◌, ℕ, IfSome, Some, bytes_eq, decimal};

use cash_amounts::Words;
use itoa::Buffer;

/// What is asked for. FILE is the second word.
#[derive(Clone, Copy, Debug, PartialEq, Eq)]
pub enum Command {
    /// `run` or `resume`: nothing is kept.
    Runs,
    /// `keep FILE [BYTES]`: so many bytes were written before.
    Keeps(u64),
    /// `count FILE`.
    Counts,
    /// `show FILE`.
    Shows,
    /// Other words after one of these three.
    Wrong,
    /// Other words.
    Other,
}

// Whether a word is the text of a number.
fn is_text_of(word: &str, number: u64) -> bool
    ensures { result ≡ bytes_eq (decimal number) word.now }
{
    let mut digits = Buffer::new();
    digits.format(number).as_bytes() == word.as_bytes()
}

/// The number below 2^63 whose text a word is, in decimal and without a leading zero; None for any other word.
pub fn bytes_of_word(word: &str) -> Option<u64>
    ensures spelled { IfSome result (λ n. (n < 2 ^ 63) × (word.now ≡ decimal n)) }
    ensures each { (n : ℕ) → n < 2 ^ 63 → word.now ≡ decimal n → result ≡ Some n }
{
    let number = match word.parse::<u64>() {
        Ok(number) => number,
        Err(_) => return None,
    };
    if number > 9_223_372_036_854_775_807 {
        return None;
    }
    if is_text_of(word, number) {
        Some(number)
    } else {
        None
    }
}

// What a word that FILE follows asks for.
fn command_on_file(word: &str) -> Command {
    if word == "keep" {
        return Command::Keeps(0);
    }
    if word == "count" {
        return Command::Counts;
    }
    if word == "show" {
        return Command::Shows;
    }
    Command::Other
}

// What `keep FILE` and a third word ask for.
fn command_with_bytes(word: &str) -> Command {
    match bytes_of_word(word) {
        Some(bytes) => Command::Keeps(bytes),
        None => Command::Wrong,
    }
}

/// What the words ask for.
pub fn command_of(words: &Words) -> Command {
    if words.len() == 0 {
        return Command::Other;
    }
    let first = words.word(0);
    if words.len() == 1 && (first == "run" || first == "resume") {
        return Command::Runs;
    }
    match command_on_file(first) {
        Command::Other => Command::Other,
        command => {
            if words.len() == 2 {
                return command;
            }
            if words.len() == 3 && first == "keep" {
                return command_with_bytes(words.word(2));
            }
            Command::Wrong
        }
    }
}
