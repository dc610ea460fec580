//! Which items have flags that stand at first.
ghost use Rattle.std.specs.Prelude.{◌≡◌};
ghost use Rattle.machine.specs.Records.Messages.{sort_of};
ghost use Rattle.day_facts.specs.Left.{counts, is_single, is_watched};

use cash_amounts::Procedure;
use rule_book::Setting;
use rule_book::batches::{is_credit, is_debit};
use rule_book::sorts::{is_pay, procedure_of_batch};

/// Which items have flags that stand at first.
#[derive(Clone, Copy)]
pub enum Watched {
    // Debit entries, until they are booked.
    Debits,
    // Items that have to be booked before the message is settled, until they are booked or revoked.
    Waiting,
    // Entries of an E batch, until they are revoked.
    Kept,
}

// Whether item k has to be booked before message n is settled.
fn counts(setting: &Setting, n: u32, k: u32) -> bool
    ensures { result ≡ counts (sort_of setting.now.day n) setting.now.day n k }
{
    match procedure_of_batch(setting, n) {
        Some(Procedure::A) => is_credit(setting, n, k),
        Some(Procedure::C) | Some(Procedure::E) => k != 0,
        Some(Procedure::B) | Some(Procedure::D) => false,
        None => is_pay(setting, n) && k == 0,
    }
}

// Whether item k of message n can be revoked by itself.
fn is_single(setting: &Setting, n: u32, k: u32) -> bool
    ensures { result ≡ is_single (sort_of setting.now.day n) k }
{
    match procedure_of_batch(setting, n) {
        Some(Procedure::E) => k != 0,
        _ => false,
    }
}

// Whether the flag of item k of message n stands at first.
pub fn is_watched(setting: &Setting, watched: Watched, n: u32, k: u32) -> bool
    ensures { result ≡ is_watched watched setting.now.day n k }
{
    match watched {
        Watched::Debits => is_debit(setting, n, k),
        Watched::Waiting => counts(setting, n, k),
        Watched::Kept => is_single(setting, n, k),
    }
}
