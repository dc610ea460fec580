// The groups that a step has locked.
ghost use Rattle.std.specs.Prelude.{◌≡◌, ◌%◌, ◌∷◌, [], true, Some, IsSome, is_some, map};
ghost use Rattle.batch_records.specs.Sound.{is_sound};
ghost use Rattle.machine.specs.Legal.{IsLegal};
ghost use Rattle.lock_book.specs.Locked.{AllSeen, HasSeen, held_by, holdings_of};

use crate::group::Group;
use crate::name::HallName;
use account_book::Holdings;
use cash_amounts::{AccountNumber, Cents};
use commit_journal::Journal;
use journal_pass::{PassTable, Teller};
use std::sync::MutexGuard;

// The guard of each group that is locked. Their accounts are at hand, with the balances over what each group has seen.
#[derive(Drop)]
pub(crate) struct Held<'a, H: HallName> {
    pub(crate) zero: Option<MutexGuard<'a, Group<H, 0>>>,
    pub(crate) one: Option<MutexGuard<'a, Group<H, 1>>>,
    pub(crate) two: Option<MutexGuard<'a, Group<H, 2>>>,
    pub(crate) three: Option<MutexGuard<'a, Group<H, 3>>>,
    pub(crate) four: Option<MutexGuard<'a, Group<H, 4>>>,
    pub(crate) five: Option<MutexGuard<'a, Group<H, 5>>>,
    pub(crate) six: Option<MutexGuard<'a, Group<H, 6>>>,
    pub(crate) seven: Option<MutexGuard<'a, Group<H, 7>>>,
}

fn has<H: HallName, const NUMBER: u32>(
    lock: &Option<MutexGuard<'_, Group<H, NUMBER>>>,
    a: u32,
) -> bool
    requires { a % 8 ≡ NUMBER }
    ensures { result ≡ is_some (held_by H.day lock.now a) }
{
    match lock {
        Some(group) => group.has(a),
        None => false,
    }
}

fn amount<H: HallName, const NUMBER: u32>(
    lock: &Option<MutexGuard<'_, Group<H, NUMBER>>>,
    a: u32,
) -> Cents
    requires number { a % 8 ≡ NUMBER }
    requires there { IsSome (held_by H.day lock.now a) }
    ensures { held_by H.day lock.now a ≡ Some result }
{
    match lock {
        Some(group) => group.balance(a),
        None => unreachable!(),
    }
}

// Brings a group up to the journal, if it is locked.
fn bring_up<H: HallName, const NUMBER: u32>(
    lock: &mut Option<MutexGuard<'_, Group<H, NUMBER>>>,
    table: &PassTable,
    teller: &mut Teller,
    journal: &Journal,
)
    requires table { (table.now.table ≡ H.table) × (teller.old.table ≡ H.table) }
    requires sound { is_sound H.day ≡ true }
    requires legal { IsLegal H.day journal.now.history }
    requires whole { journal.now.history ≡ teller.old.lines }
    ensures teller { teller.new ≡ teller.old }
    ensures same { is_some lock.new ≡ is_some lock.old }
    ensures seen { HasSeen lock.new journal.now.history }
{
    if let Some(group) = lock {
        group.catch_up(table, teller, journal);
    }
}

impl<H: HallName> Holdings for Held<'_, H> {
    ghost holdings = { λ h a. holdings_of H.day
        (h.zero ∷ h.one ∷ h.two ∷ h.three ∷ h.four ∷ h.five ∷ h.six ∷ h.seven ∷ []) a };

    fn has(&self, a: AccountNumber) -> bool {
        match a % 8 {
            0 => has(&self.zero, a),
            1 => has(&self.one, a),
            2 => has(&self.two, a),
            3 => has(&self.three, a),
            4 => has(&self.four, a),
            5 => has(&self.five, a),
            6 => has(&self.six, a),
            _ => has(&self.seven, a),
        }
    }

    fn balance(&self, a: AccountNumber) -> Cents {
        match a % 8 {
            0 => amount(&self.zero, a),
            1 => amount(&self.one, a),
            2 => amount(&self.two, a),
            3 => amount(&self.three, a),
            4 => amount(&self.four, a),
            5 => amount(&self.five, a),
            6 => amount(&self.six, a),
            _ => amount(&self.seven, a),
        }
    }
}

impl<H: HallName> Held<'_, H> {
    // Brings the locked groups up to the journal.
    pub(crate) fn catch_up(&mut self, table: &PassTable, teller: &mut Teller, journal: &Journal)
        requires table { (table.now.table ≡ H.table) × (teller.old.table ≡ H.table) }
        requires sound { is_sound H.day ≡ true }
        requires legal { IsLegal H.day journal.now.history }
        requires whole { journal.now.history ≡ teller.old.lines }
        ensures teller { teller.new ≡ teller.old }
        ensures same { map is_some (self.new.zero ∷ self.new.one ∷ self.new.two ∷ self.new.three
            ∷ self.new.four ∷ self.new.five ∷ self.new.six ∷ self.new.seven ∷ [])
            ≡ map is_some
            (self.old.zero ∷ self.old.one ∷ self.old.two ∷ self.old.three ∷ self.old.four
            ∷ self.old.five ∷ self.old.six ∷ self.old.seven ∷ []) }
        ensures seen { AllSeen (self.new.zero ∷ self.new.one ∷ self.new.two ∷ self.new.three
            ∷ self.new.four ∷ self.new.five ∷ self.new.six ∷ self.new.seven ∷ [])
            journal.now.history }
    {
        bring_up(&mut self.zero, table, teller, journal);
        bring_up(&mut self.one, table, teller, journal);
        bring_up(&mut self.two, table, teller, journal);
        bring_up(&mut self.three, table, teller, journal);
        bring_up(&mut self.four, table, teller, journal);
        bring_up(&mut self.five, table, teller, journal);
        bring_up(&mut self.six, table, teller, journal);
        bring_up(&mut self.seven, table, teller, journal);
    }
}
