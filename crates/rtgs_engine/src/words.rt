//! The command lines of the program.
ghost use Rattle.std.specs.Prelude.{◌≡◌, ◌<◌, ◌≤◌, Some, option_map, IfSome};
ghost use Rattle.rtgs_engine.specs.CommandLines.{batches_of, command_alone, command_of, command_of_five, command_of_four, command_of_two, command_of_three, count_behind, count_of, count_of_two, first_of, follow_of, from, number_of, seed_of, trial_by, trial_of, trial_of_four, trial_of_three, with_digits, workers_of};

use cash_amounts::{Name, Words};

/// How many workers there are where the words don't say.
const USUAL_WORKERS: u32 = 4;

/// The words of a trial.
#[derive(Drop, Clone, Copy, Debug, PartialEq, Eq)]
pub struct Trial {
    /// The number of which its day is made, below 2^31.
    pub seed: u32,
    /// How many batches its day has, 1 to 10,000.
    pub batches: u32,
    /// By how many workers it is settled; by none in the written order.
    pub workers: u32,
}

/// What the program is asked to do.
#[derive(Drop, Debug, PartialEq, Eq)]
pub enum Command {
    /// To settle a day, by so many workers; by none in the written order.
    Settle { workers: u32 },
    /// To check that an input is a day.
    Check,
    /// To write a day as one of version 2, and one of version 3 as it is.
    Migrate,
    /// To check that what follows a day is its journal.
    Replay,
    /// To say what a party of this name knows of a day by the messages among the lines that follow it.
    Follow { name: Name },
    /// To settle the day of a trial, and to say what its accounts hold then.
    Trial(Trial),
}

// A digit from 0 to 8, alone.
fn count_of(text: &[u8]) -> Option<u32>
    ensures { result ≡ count_of text.now }
{
    match text {
        [digit @ b'0'..=b'8'] => Some(u32::from(digit - b'0')),
        _ => None,
    }
}

// The count of the word `--workers=N`.
fn count_behind(word: &str) -> Option<u32>
    ensures { result ≡ count_behind word.now }
{
    match word.as_bytes().strip_prefix(b"--workers=") {
        Some(count) => count_of(count),
        None => None,
    }
}

// The count of the words `--workers N`.
fn count_of_two(option: &str, count: &str) -> Option<u32>
    ensures { result ≡ count_of_two option.now count.now }
{
    if option == "--workers" {
        count_of(count.as_bytes())
    } else {
        None
    }
}

fn settle_by(workers: Option<u32>) -> Option<Command>
    ensures { result ≡ option_map Command.Settle workers }
{
    match workers {
        Some(workers) => Some(Command::Settle { workers }),
        None => None,
    }
}

fn command_alone(word: &str) -> Option<Command>
    ensures { result ≡ command_alone word.now }
{
    if word == "settle" {
        Some(Command::Settle {
            workers: USUAL_WORKERS,
        })
    } else if word == "check" {
        Some(Command::Check)
    } else if word == "migrate" {
        Some(Command::Migrate)
    } else if word == "replay" {
        Some(Command::Replay)
    } else {
        None
    }
}

fn follow_of(name: &str) -> Option<Command>
    ensures { result ≡ follow_of name.now }
{
    match Name::read(name.as_bytes()) {
        Some(name) => Some(Command::Follow { name }),
        None => None,
    }
}

fn command_of_two(word: &str, other: &str) -> Option<Command>
    ensures { result ≡ command_of_two word.now other.now }
{
    if word == "settle" {
        return settle_by(count_behind(other));
    }
    if word == "follow" {
        return follow_of(other);
    }
    None
}

// The number that digits spell, where it is at most so much.
fn with_digits(most: u32, text: &[u8]) -> Option<u32>
    ensures { result ≡ with_digits most 0 text.now }
{
    let mut n = 0;
    for c in text {
        if *c < b'0' || b'9' < *c {
            return None;
        }
        let next = 10 * u64::from(n) + u64::from(*c - b'0');
        if u64::from(most) < next {
            return None;
        }
        n = next as u32;
    }
    Some(n)
}

fn at_least(least: u32, number: Option<u32>) -> Option<u32>
    ensures { result ≡ from least number }
{
    match number {
        Some(n) if least <= n => Some(n),
        _ => None,
    }
}

// A number from least to most, of 1 to so many digits.
fn number_of(digits: usize, least: u32, most: u32, text: &[u8]) -> Option<u32>
    ensures { result ≡ number_of digits least most text.now }
{
    if text.is_empty() || digits < text.len() {
        None
    } else {
        at_least(least, with_digits(most, text))
    }
}

fn seed_of(word: &str) -> Option<u32>
    ensures { result ≡ seed_of word.now }
{
    number_of(10, 0, 2_147_483_647, word.as_bytes())
}

fn batches_of(word: &str) -> Option<u32>
    ensures { result ≡ batches_of word.now }
{
    number_of(5, 1, 10_000, word.as_bytes())
}

fn trial_by(workers: Option<u32>, seed: Option<u32>, batches: Option<u32>) -> Option<Trial>
    ensures { result ≡ trial_by workers seed batches }
{
    match (workers, seed, batches) {
        (Some(workers), Some(seed), Some(batches)) => Some(Trial {
            seed,
            batches,
            workers,
        }),
        _ => None,
    }
}

fn trial_of(workers: Option<u32>, seed: &str, batches: &str) -> Option<Trial>
    ensures { result ≡ trial_of workers seed.now batches.now }
{
    trial_by(workers, seed_of(seed), batches_of(batches))
}

fn first_of(trial: Option<Trial>, other: Option<Trial>) -> Option<Trial>
    ensures { result ≡ first_of trial other }
{
    match trial {
        Some(trial) => Some(trial),
        None => other,
    }
}

// Where `--workers=N` is one of three words.
fn trial_of_three(a: &str, b: &str, c: &str) -> Option<Trial>
    ensures { result ≡ trial_of_three a.now b.now c.now }
{
    let behind = trial_of(count_behind(c), a, b);
    let between = trial_of(count_behind(b), a, c);
    first_of(trial_of(count_behind(a), b, c), first_of(between, behind))
}

// Where `--workers N` are two of four words.
fn trial_of_four(a: &str, b: &str, c: &str, d: &str) -> Option<Trial>
    ensures { result ≡ trial_of_four a.now b.now c.now d.now }
{
    let behind = trial_of(count_of_two(c, d), a, b);
    let between = trial_of(count_of_two(b, c), a, d);
    first_of(
        trial_of(count_of_two(a, b), c, d),
        first_of(between, behind),
    )
}

fn try_by(trial: Option<Trial>) -> Option<Command>
    ensures { result ≡ option_map Command.Trial trial }
{
    match trial {
        Some(trial) => Some(Command::Trial(trial)),
        None => None,
    }
}

fn command_of_three(word: &str, a: &str, b: &str) -> Option<Command>
    ensures { result ≡ command_of_three word.now a.now b.now }
{
    if word == "settle" {
        return settle_by(count_of_two(a, b));
    }
    if word == "trial" {
        return try_by(trial_of(Some(USUAL_WORKERS), a, b));
    }
    None
}

fn command_of_four(word: &str, a: &str, b: &str, c: &str) -> Option<Command>
    ensures { result ≡ command_of_four word.now a.now b.now c.now }
{
    if word == "trial" {
        try_by(trial_of_three(a, b, c))
    } else {
        None
    }
}

fn command_of_five(word: &str, a: &str, b: &str, c: &str, d: &str) -> Option<Command>
    ensures { result ≡ command_of_five word.now a.now b.now c.now d.now }
{
    if word == "trial" {
        try_by(trial_of_four(a, b, c, d))
    } else {
        None
    }
}

/// What a command line asks for; None exactly where the words are no command line. The command lines are `settle`, `check`,
/// `migrate`, `replay`, `follow NAME`, and `trial SEED BATCHES`, with a seed of 1 to 10 digits, at most 2,147,483,647, and 1 to
/// 10,000 batches, of 1 to 5 digits. Anywhere after `settle` and `trial` may stand once `--workers N` or `--workers=N`, with N
/// from 0 to 8; where it doesn't, N is 4. Takes no memory.
pub fn command_of(words: &Words) -> Option<Command>
    ensures { result ≡ command_of words.now }
{
    match words.len() {
        1 => command_alone(words.word(0)),
        2 => command_of_two(words.word(0), words.word(1)),
        3 => command_of_three(words.word(0), words.word(1), words.word(2)),
        4 => command_of_four(words.word(0), words.word(1), words.word(2), words.word(3)),
        5 => command_of_five(
            words.word(0),
            words.word(1),
            words.word(2),
            words.word(3),
            words.word(4),
        ),
        _ => None,
    }
}

/// How many workers a command line asks for; None exactly where the words are no command line. Takes no memory.
pub fn worker_count(words: &Words) -> Option<u32>
    ensures count { result ≡ option_map workers_of (command_of words.now) }
    ensures few { IfSome result (λ workers. workers ≤ 8) }
{
    match command_of(words) {
        Some(Command::Settle { workers }) => Some(workers),
        Some(Command::Trial(trial)) => Some(trial.workers),
        Some(_) => Some(0),
        None => None,
    }
}
