//! The draws of a trial.
ghost use Rattle.std.specs.Prelude.{◌≡◌, ◌<◌, ◌^◌};
ghost use Rattle.trial_day.specs.Trial.{next_number, number_behind, trio_behind, trios_behind};

/// What a number is multiplied by.
const FACTOR: u64 = 1_103_515_245;

/// What is added then.
const INCREMENT: u64 = 12_345;

/// All numbers are below this one.
const MODULUS: u64 = 2_147_483_648;

/// How many numbers in a row have one draw.
const NUMBERS_A_DRAW: u32 = 65_536;

// The three draws of one trio.
#[derive(Clone, Copy)]
pub(crate) struct Trio {
    pub debit: u32,
    pub credit: u32,
    pub amount: u32,
}

fn next_number(x: u32) -> u32
    requires { x < 2 ^ 31 }
    ensures value { result ≡ next_number x }
    ensures within { result < 2 ^ 31 }
{
    ((FACTOR * u64::from(x) + INCREMENT) % MODULUS) as u32
}

// The trio after a number, and the number of its last draw.
#[tactic(auto, unfolding(crate::specs::Trial::number_behind))]
fn trio_behind(x: u32) -> (Trio, u32)
    requires { x < 2 ^ 31 }
    ensures trio { result.0 ≡ trio_behind x }
    ensures number { result.1 ≡ number_behind x 3 }
    ensures within { result.1 < 2 ^ 31 }
{
    let first = next_number(x);
    let second = next_number(first);
    let third = next_number(second);
    let trio = Trio {
        debit: first / NUMBERS_A_DRAW,
        credit: second / NUMBERS_A_DRAW,
        amount: third / NUMBERS_A_DRAW,
    };
    (trio, third)
}

// The four trios of a message after a number, and the number of the last draw.
#[tactic(auto, unfolding(crate::specs::Trial::number_behind))]
pub(crate) fn trios_behind(x: u32) -> ([Trio; 4], u32)
    requires { x < 2 ^ 31 }
    ensures trios { result.0 ≡ trios_behind x }
    ensures number { result.1 ≡ number_behind x 12 }
    ensures within { result.1 < 2 ^ 31 }
{
    let (first, x) = trio_behind(x);
    let (second, x) = trio_behind(x);
    let (third, x) = trio_behind(x);
    let (fourth, x) = trio_behind(x);
    ([first, second, third, fourth], x)
}
