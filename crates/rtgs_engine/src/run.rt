//! The settlement of a day without workers.
ghost use Rattle.std.specs.Prelude.{◌≡◌, true, [], IfOk};
ghost use Rattle.cash_amounts.specs.Numbers.{numbered};
ghost use Rattle.batch_records.specs.Sound.{is_sound};
ghost use Rattle.machine.specs.Legal.{is_complete};
ghost use Rattle.machine.specs.Orders.Order.{plain};
ghost use Rattle.settle_floor.specs.Floors.{AtWork, IsBalanced};
ghost use Rattle.status_messages.specs.Walks.{Stands};

use account_book::{Holdings, OneTill};
use batch_records::Day;
use cash_amounts::Memory;
use commit_journal::Journal;
use rule_book::Setting;
use settle_floor::Floor;
use status_messages::StatusWalk;
use std::alloc::Global;

/// A settled day: its journal, and what its accounts hold at the end.
#[derive(Drop)]
pub struct Settled<T: Holdings> {
    pub setting: Setting,
    pub journal: Journal,
    pub till: T,
}

/// A settled day, and a walk that can tell its parties of it.
#[derive(Drop)]
pub struct Told {
    pub settled: Settled<OneTill>,
    pub walk: StatusWalk,
}

// Settles a day in the written order, on a new floor and a new till.
fn run_out(setting: Setting, mut floor: Floor, mut till: OneTill) -> Settled<OneTill>
    requires at_work { AtWork setting.day floor (numbered till) }
    requires empty { floor.journal.history ≡ [] }
    ensures day { result.setting.day ≡ setting.day }
    ensures lines { result.journal.history ≡ plain setting.day }
    ensures complete { is_complete result.journal.history ≡ true }
    ensures balanced { IsBalanced result.setting.day result.journal (numbered result.till) }
{
    floor.run_out(&setting, &mut till);
    Settled {
        setting,
        journal: floor.into_journal(),
        till,
    }
}

/// Settles the day of a setting in the written order.
pub(crate) fn settle_in(alloc: Global, setting: Setting) -> Result<Settled<OneTill>, Memory>
    ensures day { IfOk result (λ settled. settled.setting.day ≡ setting.day) }
    ensures lines { IfOk result (λ settled. settled.journal.history ≡ plain setting.day) }
    ensures complete { IfOk result (λ settled. is_complete settled.journal.history ≡ true) }
    ensures balanced { IfOk result (λ settled. IsBalanced settled.setting.day settled.journal
        (numbered settled.till)) }
{
    let till = match OneTill::open(alloc, &setting.book) {
        Ok(till) => till,
        Err(memory) => {
            drop(setting);
            return Err(memory);
        }
    };
    match Floor::open(alloc, &setting) {
        Ok(floor) => Ok(run_out(setting, floor, till)),
        Err(memory) => {
            drop(till);
            drop(setting);
            Err(memory)
        }
    }
}

/// Settles a day in the written order. Memory is the only thing that may be wanting. The walk is opened once the floor is let
/// go, so that what they keep of the lines isn't held twice.
pub fn settle(alloc: Global, day: Day) -> Result<Told, Memory>
    requires sound { is_sound day ≡ true }
    ensures day { IfOk result (λ told. told.settled.setting.day ≡ day) }
    ensures lines { IfOk result (λ told. told.settled.journal.history ≡ plain day) }
    ensures complete { IfOk result (λ told. is_complete told.settled.journal.history ≡ true) }
    ensures balanced { IfOk result (λ told. IsBalanced told.settled.setting.day told.settled.journal
        (numbered told.settled.till)) }
    ensures first { IfOk result (λ told. Stands told.settled.setting.day [] told.walk) }
{
    let setting = Setting::build(alloc, day)?;
    let settled = settle_in(alloc, setting)?;
    match StatusWalk::with_room(alloc, &settled.setting) {
        Ok(walk) => Ok(Told { settled, walk }),
        Err(memory) => {
            drop(settled);
            Err(memory)
        }
    }
}
