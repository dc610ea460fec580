//! The texts of amounts.
ghost use Rattle.std.specs.Prelude.{◌≡◌, ℕ, List, ◌+◌, ◌*◌, ◌<◌, ◌≤◌, [], ◌∷◌, ◌++◌, length, decimal, IfOk, IfErr, IfSome, MatchOption};
ghost use Rattle.arrayvec.specs.ArrayString.{array_string_len};
ghost use Rattle.cash_amounts.specs.AmountText.{amount_text};
ghost use Rattle.cash_amounts.specs.AmountGrammar.{IsAmountText, IsAmountFault, BeginsAmount};
ghost use Rattle.cash_amounts.specs.Stages.{cents_so_far, EndsAt, FitsNoAmount, GoesOn};

use crate::{Cents, MAX_CENTS};
use arrayvec::ArrayString;
use itoa::Buffer;

/// A text is no amount's.
#[derive(Clone, Copy, Debug, PartialEq, Eq)]
pub struct AmountFault {
    /// The place, from 0, of the first byte with which the text can no longer become an amount's; the length of the
    /// text, where more bytes would have made it one.
    pub at: usize,
}

// How far a text has come.
#[derive(Clone, Copy)]
enum Stage {
    Start,
    /// After digits that make this many euros.
    Euros(u64),
    /// After their full stop.
    Stop(u64),
    /// After one more digit, at this many cents.
    Tenths(u64),
    /// After the last digit.
    Units(u64),
}

impl Stage {
    // The cents of the text so far, with zeros for what is missing.
    fn cents(self) -> u64
        requires { cents_so_far self ≤ 18 * MAX_CENTS }
        ensures { result ≡ cents_so_far self }
    {
        match self {
            Stage::Start => 0,
            Stage::Euros(euros) | Stage::Stop(euros) => 100 * euros,
            Stage::Tenths(cents) | Stage::Units(cents) => cents,
        }
    }

    // The stage after one more byte, whatever the amount.
    fn step(self, byte: u8) -> Option<Stage>
        requires { cents_so_far self ≤ MAX_CENTS }
        ensures step { MatchOption result (EndsAt self byte) (GoesOn self byte) }
        ensures small { IfSome result (λ next. cents_so_far next ≤ 18 * MAX_CENTS) }
    {
        match (self, byte) {
            (Stage::Start, b'0'..=b'9') => Some(Stage::Euros(u64::from(byte - b'0'))),
            (Stage::Euros(euros), b'.') => Some(Stage::Stop(euros)),
            (Stage::Euros(euros), b'0'..=b'9') if euros > 0 => {
                Some(Stage::Euros(10 * euros + u64::from(byte - b'0')))
            }
            (Stage::Stop(euros), b'0'..=b'9') => {
                Some(Stage::Tenths(100 * euros + 10 * u64::from(byte - b'0')))
            }
            (Stage::Tenths(cents), b'0'..=b'9') => {
                Some(Stage::Units(cents + u64::from(byte - b'0')))
            }
            _ => None,
        }
    }
}

// The stage after one more byte, where some amount begins so.
fn next_stage(stage: Stage, byte: u8) -> Option<Stage>
    requires { cents_so_far stage ≤ MAX_CENTS }
    ensures fits { MatchOption result (FitsNoAmount stage byte) (GoesOn stage byte) }
    ensures within { IfSome result (λ next. cents_so_far next ≤ MAX_CENTS) }
{
    let next = stage.step(byte)?;
    if next.cents() <= MAX_CENTS {
        Some(next)
    } else {
        None
    }
}

/// The amount of a text: euros in decimal digits without a leading zero, a full stop and two digits, up to
/// `MAX_CENTS` cents. Each amount has exactly one text.
pub fn read_cents(text: &[u8]) -> Result<Cents, AmountFault>
    ensures ok { IfOk result (λ cents. IsAmountText text.now cents) }
    ensures err { IfErr result (λ fault. IsAmountFault text.now fault.at) }
{
    let mut stage = Stage::Start;
    for (at, byte) in text.iter().enumerate() {
        stage = match next_stage(stage, *byte) {
            Some(next) => next,
            None => return Err(AmountFault { at }),
        };
    }
    match stage {
        Stage::Units(cents) => Ok(Cents::within(cents)),
        _ => Err(AmountFault { at: text.len() }),
    }
}

// Puts one ASCII character at the end of a text that has room for it.
fn push_ascii(text: &mut ArrayString<20>, byte: u8)
    requires ascii { byte < 128 }
    requires room { array_string_len text.old < 20 }
    ensures bytes { text.new.bytes ≡ text.old.bytes ++ byte ∷ [] }
    ensures length { array_string_len text.new ≡ array_string_len text.old + 1 }
{
    text.push(char::from(byte));
}

fn push_digit(text: &mut ArrayString<20>, digit: u64)
    requires digit { digit < 10 }
    requires room { array_string_len text.old < 20 }
    ensures bytes { text.new.bytes ≡ text.old.bytes ++ (48 + digit) ∷ [] }
    ensures length { array_string_len text.new ≡ array_string_len text.old + 1 }
{
    push_ascii(text, b'0' + digit as u8);
}

/// The text of an amount, as `read_cents` reads it.
#[tactic(auto, using(crate::proofs::AmountLemmas::decimals))]
pub fn put_cents(value: Cents) -> ArrayString<20>
    ensures text { result.bytes ≡ amount_text value }
    ensures grammar { IsAmountText result.bytes value }
{
    let cents = value.get();
    let mut text = ArrayString::new();
    text.push_str(Buffer::new().format(cents / 100));
    push_ascii(&mut text, b'.');
    push_digit(&mut text, cents / 10 % 10);
    push_digit(&mut text, cents % 10);
    text
}

/// Each amount has one text, each text is of one amount, and each other text has one fault.
pub fn one_text_each()
    ensures one_text { (m : ℕ) (text more : List ℕ) → IsAmountText text m → IsAmountText more m
        → text ≡ more }
    ensures one_amount { (m n : ℕ) (text : List ℕ) → IsAmountText text m → IsAmountText text n
        → m ≡ n }
    ensures one_fault { (i j : ℕ) (text : List ℕ) → IsAmountFault text i → IsAmountFault text j
        → i ≡ j }
    ensures fronts { (front rest : List ℕ) → BeginsAmount (front ++ rest) → BeginsAmount front }
{}
