//! What a procedure asks of the place where it works.
ghost use Rattle.std.specs.Prelude.{◌≡◌, ◌<◌, ◌≤◌, ℕ, Bool, true, length};
ghost use Rattle.account_book.specs.Directory.{system_name};
ghost use Rattle.batch_records.specs.DayRecord.{Day};
ghost use Rattle.batch_records.specs.Sound.{is_sound};
ghost use Rattle.commit_journal.specs.Line.{History};
ghost use Rattle.machine.specs.Records.Setup.{account_numbers};
ghost use Rattle.machine.specs.Records.Messages.{entries};
ghost use Rattle.machine.specs.Telling.History.{asked, booked, clock, closed, covered, ended, taken, taken_code};
ghost use Rattle.machine.specs.Telling.Balances.{balance};
ghost use Rattle.machine.specs.Telling.Facts.{answer, open_cycle, revoked, round};
ghost use Rattle.machine.specs.Stages.Phases.{phase};
ghost use Rattle.machine.specs.Stages.Pending.{first_unbooked_debit, is_pending, stands_on};
ghost use Rattle.machine.specs.Stages.Blockers.{first_blocker};
ghost use Rattle.machine.specs.Legal.{IsLegal};

use crate::setting::Setting;
use cash_amounts::{AccountNumber, Cents, EntryNumber, MessageNumber};
use commit_journal::Code;
use machine::{Item, Phase};

/// A day and a journal that is legal for it, with the accounts of which the balances are at hand. Messages and accounts
/// are named by their numbers, from 1 in file order; an entry of a batch by its number, from 1, and 0 stands for the
/// message itself. Places count from 1. Of a message that the day doesn't have there are no lines: the answers are None,
/// and the phase is Untaken.
pub trait Desk {
    /// The day.
    ghost day: { Self → Day };

    /// The lines so far, the newest first.
    ghost past: { Self → History };

    /// Which accounts' balances are at hand.
    ghost held: { Self → ℕ → Bool };

    /// The day is sound, and the machine made the lines.
    ghost sound: { (desk : Self) → is_sound (day desk) ≡ true };

    ghost legal: { (desk : Self) → IsLegal (day desk) (past desk) };

    /// The day with what was found out about it once.
    fn setting(&self) -> &Setting
        ensures { result.now.day ≡ day self.now };

    /// The time to which the clock was moved, in seconds.
    fn clock(&self) -> u32
        ensures { result ≡ clock (past self.now) };

    /// How many stated stops the clock has reached.
    fn round(&self) -> u32
        ensures { result ≡ round (day self.now) (past self.now) };

    /// How many lines there are.
    fn lines(&self) -> u32
        ensures { result ≡ length (past self.now) };

    /// The place of the message's In line.
    fn taken(&self, n: MessageNumber) -> Option<u32>
        ensures { result ≡ taken (past self.now) n };

    /// The code of the message's In line.
    fn code(&self, n: MessageNumber) -> Option<Code>
        ensures { result ≡ taken_code (past self.now) n };

    /// The place of the Book line of the message's entry.
    fn booked(&self, n: MessageNumber, k: EntryNumber) -> Option<u32>
        ensures { result ≡ booked (past self.now) n k };

    /// The first debit entry of a batch of A or B that isn't booked.
    fn first_unbooked_debit(&self, n: MessageNumber) -> Option<u32>
        ensures { result ≡ first_unbooked_debit (day self.now) (past self.now) n };

    /// The place of the In line of the objection that revoked the message's entry first. An objection to a batch of A or B
    /// revokes it whole, so there any number of an entry gives that place.
    fn revoked(&self, n: MessageNumber, k: EntryNumber) -> Option<u32>
        ensures { result ≡ revoked (day self.now) (past self.now) n k };

    /// The place of the message's Ask line.
    fn asked(&self, n: MessageNumber) -> Option<u32>
        ensures { result ≡ asked (past self.now) n };

    /// Whether the accepted answer on the batch is Y, where there is one.
    fn answered(&self, n: MessageNumber) -> Option<bool>
        ensures { result ≡ answer (day self.now) (past self.now) n };

    /// The place of the message's Cover line.
    fn covered(&self, n: MessageNumber) -> Option<u32>
        ensures { result ≡ covered (past self.now) n };

    /// The place of the message's Expire or Refuse line.
    fn closed(&self, n: MessageNumber) -> Option<u32>
        ensures { result ≡ closed (past self.now) n };

    /// The place of the START line of the open cycle of a system, by the system's number, from 1 in file order.
    fn cycle(&self, system: u32) -> Option<u32>
        requires least { 0 < system }
        requires most { system ≤ length (day self.now).systems }
        ensures { result ≡ open_cycle (day self.now) (system_name (day self.now).systems system)
            (past self.now) };

    /// How far the message has come.
    fn phase(&self, n: MessageNumber) -> Phase
        ensures { result ≡ phase (day self.now) (past self.now) n };

    /// The balance of an account that is at hand.
    fn balance(&self, a: AccountNumber) -> Cents
        requires { held self.now a ≡ true }
        ensures { result ≡ balance (day self.now) (past self.now) a };

    /// The place of the End line.
    fn ended(&self) -> Option<u32>
        ensures { result ≡ ended (past self.now) };

    /// Whether the account's balance is at hand.
    fn has(&self, a: AccountNumber) -> bool
        ensures { result ≡ held self.now a };

    /// Of the items that stand before this one on the account, the foremost.
    fn first_blocker(&self, item: Item, a: AccountNumber) -> Option<Item>
        requires pending { is_pending (day self.now) (past self.now) item ≡ true }
        requires there { stands_on (day self.now) a item ≡ true }
        ensures { result ≡ first_blocker (day self.now) (past self.now) item a };
}
