//! One line more in a store.
ghost use Rattle.std.specs.Prelude.{◌≡◌, ◌+◌, ◌≤◌, true};
ghost use Rattle.cash_amounts.specs.Numbers.{numbered};
ghost use Rattle.settle_floor.specs.Floors.{AtWork};
ghost use Rattle.ready_items.specs.Kept.{IsRenewed};
ghost use Rattle.disk_model.specs.Lasting.{StillLasts};
ghost use Rattle.disk_model.specs.Runs.{LeavesOnly};
ghost use Rattle.durable_day.specs.Steps.{HasAnswered, IsStep, StandsWithOrWithout, disk_after, made_or_fault, moves_on, step_bytes};

use crate::store::Store;
use account_book::OneTill;
use commit_journal::Want;
use disk_model::Disk;
use rule_book::{Setting, Why};
use settle_floor::Floor;

/// What a step did.
#[derive(Drop)]
pub enum StoreStep<D: Disk> {
    /// It made the want's line, which stands at this place, counted from 1, and is on the disk.
    Made { store: Store<D>, place: u32 },
    /// The want has no line, for this reason. Nothing was written.
    Not { store: Store<D>, why: Why },
    /// A call of the disk failed. The store is to be opened again: the line is there or not.
    Fault { disk: D },
}

fn step_of<D: Disk>(kept: Result<Store<D>, D>, place: u32) -> StoreStep<D>
    ensures { result ≡ made_or_fault kept place }
{
    match kept {
        Ok(store) => StoreStep::Made { store, place },
        Err(disk) => StoreStep::Fault { disk },
    }
}

// Before the clock moves or the day ends the floor has to know what is ready.
fn renew_before(setting: &Setting, floor: &mut Floor, till: &OneTill, want: Want)
    requires at_work { AtWork setting.now.day floor.old (numbered till.now) }
    ensures journal { floor.new.journal ≡ floor.old.journal }
    ensures renewed { moves_on want ≡ true → IsRenewed floor.new.index.ready }
    ensures at_work { AtWork setting.now.day floor.new (numbered till.now) }
{
    match want {
        Want::Time | Want::End => floor.renew(setting, till),
        _ => {}
    }
}

// Makes the line of the want, where it has one.
fn answer(setting: &Setting, floor: &mut Floor, till: &mut OneTill, want: Want) -> Result<u32, Why>
    requires at_work { AtWork setting.now.day floor.old (numbered till.old) }
    ensures answered { HasAnswered setting.now.day floor.old.journal.history
        floor.new.journal.history want result }
    ensures at_work { AtWork setting.now.day floor.new (numbered till.new) }
{
    renew_before(setting, floor, till, want);
    floor.answer(setting, till, want)
}

impl<D: Disk> Store<D> {
    /// Makes the line of the want, where it has one, and puts it on the disk. It takes at most four calls of the disk, and no memory.
    pub fn step(self, want: Want) -> StoreStep<D>
        ensures step { IsStep D.seen D.image D.faults self want result }
        ensures moments { LeavesOnly D.clock D.since self.disk (disk_after result)
            (StandsWithOrWithout self.day self.history want) }
        ensures time { D.clock (disk_after result) ≤ D.clock self.disk + 4 }
        ensures sure { StillLasts D.lasts D.faults self.disk (disk_after result) 4 4
            (step_bytes self.day self.history want) }
    {
        let Store {
            setting,
            floor,
            till,
            piece,
            end,
            disk,
        } = self;
        let mut floor = floor;
        let mut till = till;
        match answer(&setting, &mut floor, &mut till, want) {
            Err(why) => StoreStep::Not {
                store: Store::of(setting, floor, till, piece, end, disk),
                why,
            },
            Ok(place) => step_of(
                Store::with_newest(setting, floor, till, piece, end, disk),
                place,
            ),
        }
    }
}
