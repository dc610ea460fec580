//! The names of a trial.
ghost use Rattle.std.specs.Prelude.{◌≡◌, ◌+◌, ◌<◌, ◌≤◌};
ghost use Rattle.trial_day.specs.Trial.{bank_name, dca_name, message_id, system_name, technical_a, technical_b};

use arrayvec::ArrayString;
use cash_amounts::{MsgId, Name};
use itoa::Buffer;

// The digit of a number below ten.
fn digit(n: u32) -> u8
    requires { n < 10 }
    ensures { result ≡ 48 + n }
{
    b'0' + n as u8
}

// The name of dedicated cash account n.
#[tactic(auto, using(crate::proofs::TrialSound::dca_spelled))]
pub(crate) fn dca_name(n: u32) -> Name
    requires least { 1 ≤ n }
    requires most { n ≤ 16 }
    ensures { result ≡ dca_name n }
{
    let text = [b'D', b'C', b'A', digit(n / 10), digit(n % 10)];
    Name::read(&text).unwrap()
}

// The name of the bank that owns it.
#[tactic(auto, using(crate::proofs::TrialSound::bank_spelled))]
pub(crate) fn bank_name(n: u32) -> Name
    requires least { 1 ≤ n }
    requires most { n ≤ 16 }
    ensures { result ≡ bank_name n }
{
    let text = [b'B', b'A', b'N', b'K', digit(n / 10), digit(n % 10)];
    Name::read(&text).unwrap()
}

// The name of system s.
#[tactic(auto, using(crate::proofs::TrialSound::system_spelled))]
pub(crate) fn system_name(s: u32) -> Name
    requires least { 1 ≤ s }
    requires most { s ≤ 8 }
    ensures { result ≡ system_name s }
{
    let text = [b'C', b'H', digit(s)];
    Name::read(&text).unwrap()
}

// The name of its technical account of A.
#[tactic(auto, using(crate::proofs::TrialSound::technical_a_spelled))]
pub(crate) fn technical_a(s: u32) -> Name
    requires least { 1 ≤ s }
    requires most { s ≤ 8 }
    ensures { result ≡ technical_a s }
{
    let text = [b'T', b'A', digit(s)];
    Name::read(&text).unwrap()
}

// The name of its technical account of B.
#[tactic(auto, using(crate::proofs::TrialSound::technical_b_spelled))]
pub(crate) fn technical_b(s: u32) -> Name
    requires least { 1 ≤ s }
    requires most { s ≤ 8 }
    ensures { result ≡ technical_b s }
{
    let text = [b'T', b'B', digit(s)];
    Name::read(&text).unwrap()
}

// The identification of message i.
#[tactic(auto, using(crate::proofs::TrialSound::id_spelled))]
pub(crate) fn message_id(i: u32) -> MsgId
    ensures { result ≡ message_id i }
{
    let mut text = ArrayString::<20>::new();
    text.push_str("M");
    text.push_str(Buffer::new().format(i));
    MsgId::read(text.as_bytes()).unwrap()
}
