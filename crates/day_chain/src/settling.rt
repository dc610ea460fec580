//! The settlement of one day.
ghost use Rattle.std.specs.Prelude.{◌≡◌, [], true, IfOk};
ghost use Rattle.cash_amounts.specs.Numbers.{numbered};
ghost use Rattle.batch_records.specs.Sound.{is_sound};
ghost use Rattle.machine.specs.Orders.Order.{plain};
ghost use Rattle.settle_floor.specs.Floors.{AtWork, IsBalanced};
ghost use Rattle.day_chain.specs.Ledgers.{IsLeftBy};

use crate::joining::DayBefore;
use account_book::OneTill;
use batch_records::Day;
use cash_amounts::Memory;
use commit_journal::Journal;
use rule_book::Setting;
use settle_floor::Floor;
use std::alloc::Global;

/// A settled day: its journal, and what its accounts hold at the end.
#[derive(Drop)]
pub struct Settled {
    pub setting: Setting,
    pub journal: Journal,
    pub till: OneTill,
}

// Settles a day in the written order, on a new floor and a new till.
fn run_out(setting: Setting, mut floor: Floor, mut till: OneTill) -> Settled
    requires at_work { AtWork setting.day floor (numbered till) }
    requires empty { floor.journal.history ≡ [] }
    ensures day { result.setting.day ≡ setting.day }
    ensures lines { result.journal.history ≡ plain setting.day }
    ensures balanced { IsBalanced result.setting.day result.journal (numbered result.till) }
{
    floor.run_out(&setting, &mut till);
    Settled {
        setting,
        journal: floor.into_journal(),
        till,
    }
}

// Settles a day in the written order.
fn settle_in(alloc: Global, setting: Setting) -> Result<Settled, Memory>
    ensures day { IfOk result (λ settled. settled.setting.day ≡ setting.day) }
    ensures lines { IfOk result (λ settled. settled.journal.history ≡ plain setting.day) }
    ensures balanced { IfOk result (λ settled. IsBalanced settled.setting.day settled.journal
        (numbered settled.till)) }
{
    let till = OneTill::open(alloc, &setting.book)?;
    match Floor::open(alloc, &setting) {
        Ok(floor) => Ok(run_out(setting, floor, till)),
        Err(memory) => Err(memory),
    }
}

/// Settles a day in the written order. Memory is the only thing that may be wanting.
pub fn settle(alloc: Global, day: Day) -> Result<Settled, Memory>
    requires sound { is_sound day ≡ true }
    ensures day { IfOk result (λ settled. settled.setting.day ≡ day) }
    ensures lines { IfOk result (λ settled. settled.journal.history ≡ plain day) }
    ensures balanced { IfOk result (λ settled. IsBalanced settled.setting.day settled.journal
        (numbered settled.till)) }
{
    let setting = Setting::build(alloc, day)?;
    settle_in(alloc, setting)
}

impl Settled {
    /// What the next day has to join.
    pub fn into_before(self) -> DayBefore
        requires lines { self.journal.history ≡ plain self.setting.day }
        requires balanced { IsBalanced self.setting.day self.journal (numbered self.till) }
        ensures { IsLeftBy self.setting.day result }
    {
        let Settled {
            setting,
            journal: _,
            till,
        } = self;
        let Setting {
            day,
            book: _,
            kept: _,
            found: _,
            tables: _,
        } = setting;
        let date = day.date();
        let (accounts, systems) = day.into_setup();
        DayBefore {
            date,
            accounts,
            systems,
            till,
        }
    }
}
