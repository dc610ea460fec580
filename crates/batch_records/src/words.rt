//! The words that fields of a record may be.

ghost use Rattle.std.specs.Prelude.{◌≡◌, bytes_eq};
ghost use Rattle.batch_records.specs.Words.{account_kind_named, has_letter, is_answer, is_cycle, is_high, is_priority, is_procedures, is_start, is_third_word, is_version_word, is_yes, listed, procedure_named, rises_from, technical_named, version_named};

use cash_amounts::{AccountKind, Procedure};

// Whether a text is this word.
pub fn is_word(text: &[u8], word: &[u8]) -> bool
    ensures { result ≡ bytes_eq text.now word.now }
{
    text == word
}

fn is_third_word(word: &[u8]) -> bool
    ensures { result ≡ is_third_word word.now }
{
    is_word(word, b"3")
}

// Whether a text is a version that VER states.
pub fn is_version_word(word: &[u8]) -> bool
    ensures { result ≡ is_version_word word.now }
{
    is_word(word, b"2") || is_third_word(word)
}

// The version of a word that is one's.
pub fn version_named(word: &[u8]) -> u8
    ensures { result ≡ version_named word.now }
{
    if is_third_word(word) { 3 } else { 2 }
}

// The kind of an account.
#[tactic(auto, unfolding(crate::specs::Words::account_kind_named))]
pub fn account_kind_named(word: &[u8]) -> Option<AccountKind>
    ensures { result ≡ account_kind_named word.now }
{
    if is_word(word, b"DCA") {
        Some(AccountKind::Dca)
    } else if is_word(word, b"SUB") {
        Some(AccountKind::Sub)
    } else if is_word(word, b"TEC") {
        Some(AccountKind::Tech)
    } else if is_word(word, b"FND") {
        Some(AccountKind::Fund)
    } else {
        None
    }
}

// The procedure of a technical account.
#[tactic(auto, unfolding(crate::specs::Words::technical_named))]
pub fn technical_named(word: &[u8]) -> Option<Procedure>
    ensures { result ≡ technical_named word.now }
{
    if is_word(word, b"A") {
        Some(Procedure::A)
    } else if is_word(word, b"B") {
        Some(Procedure::B)
    } else if is_word(word, b"C") {
        Some(Procedure::C)
    } else if is_word(word, b"D") {
        Some(Procedure::D)
    } else {
        None
    }
}

// The procedure of a batch.
#[tactic(auto, unfolding(crate::specs::Words::procedure_named))]
pub fn procedure_named(word: &[u8]) -> Option<Procedure>
    ensures { result ≡ procedure_named word.now }
{
    if is_word(word, b"E") {
        Some(Procedure::E)
    } else {
        technical_named(word)
    }
}

// Whether each letter is above the one before it, and none above E.
fn rise(text: &[u8]) -> bool
    ensures { result ≡ rises_from 64 text.now }
{
    let mut before = 64;
    for c in text {
        if *c <= before || b'E' < *c {
            return false;
        }
        before = *c;
    }
    true
}

// Whether a text is letters of A to E that rise, at least one.
#[tactic(auto, unfolding(crate::specs::Words::is_procedures))]
pub fn is_procedures(text: &[u8]) -> bool
    ensures { result ≡ is_procedures text.now }
{
    !text.is_empty() && rise(text)
}

fn has_letter(letter: u8, text: &[u8]) -> bool
    ensures { result ≡ has_letter letter text.now }
{
    text.iter().any(|c| *c == letter)
}

// Whether each of A to E is among the letters.
#[tactic(auto, unfolding(crate::specs::Words::listed))]
pub fn listed(text: &[u8]) -> [bool; 5]
    ensures { result ≡ listed text.now }
{
    [
        has_letter(b'A', text),
        has_letter(b'B', text),
        has_letter(b'C', text),
        has_letter(b'D', text),
        has_letter(b'E', text),
    ]
}

// Whether a priority is the high one.
pub fn is_high(word: &[u8]) -> bool
    ensures { result ≡ is_high word.now }
{
    is_word(word, b"H")
}

pub fn is_priority(word: &[u8]) -> bool
    ensures { result ≡ is_priority word.now }
{
    is_high(word) || is_word(word, b"N")
}

// Whether an answer is yes.
pub fn is_yes(word: &[u8]) -> bool
    ensures { result ≡ is_yes word.now }
{
    is_word(word, b"Y")
}

pub fn is_answer(word: &[u8]) -> bool
    ensures { result ≡ is_answer word.now }
{
    is_yes(word) || is_word(word, b"N")
}

// Whether a cycle starts, and else ends.
pub fn is_start(word: &[u8]) -> bool
    ensures { result ≡ is_start word.now }
{
    is_word(word, b"START")
}

pub fn is_cycle(word: &[u8]) -> bool
    ensures { result ≡ is_cycle word.now }
{
    is_start(word) || is_word(word, b"END")
}
