//! A store goes on to the end of the day.
ghost use Rattle.std.specs.Prelude.{◌≡◌, ◌⊎◌, ◌+◌, ◌<◌, ◌≤◌, true, false, None, Some, is_some, is_ok, IfOk, OnErr};
ghost use Rattle.cash_amounts.specs.Numbers.{numbered};
ghost use Rattle.outside_io.specs.Causes.{one_more};
ghost use Rattle.machine.specs.Telling.Facts.{untaken_reached};
ghost use Rattle.machine.specs.Telling.History.{is_end, is_ended};
ghost use Rattle.machine.specs.Legal.{is_complete};
ghost use Rattle.machine.specs.Making.Lines.{line_of};
ghost use Rattle.machine.specs.Orders.Order.{time_want};
ghost use Rattle.settle_floor.specs.Floors.{AtWork, IsFor};
ghost use Rattle.disk_model.specs.Cut.{IsCut};
ghost use Rattle.disk_model.specs.Lasting.{StillLasts};
ghost use Rattle.disk_model.specs.Runs.{LeavesOnly};
ghost use Rattle.durable_day.specs.Appending.{newest_by, newest_bytes};
ghost use Rattle.durable_day.specs.Bytes.{StandsFor};
ghost use Rattle.durable_day.specs.Onward.{GoesOn, IsMade, StandsOnTheWay, next_want, with_next};
ghost use Rattle.durable_day.specs.Stores.{IsStore, disk_at_end};

use crate::store::Store;
use account_book::OneTill;
use commit_journal::{Journal, Kind, Want};
use disk_model::Disk;
use rule_book::Setting;
use settle_floor::Floor;

fn is_end(kind: Kind) -> bool
    ensures { result ≡ is_end kind }
{
    matches!(kind, Kind::End)
}

// Whether the End line stands last.
fn is_complete(journal: &Journal) -> bool
    ensures { result ≡ is_complete journal.now.history }
{
    let place = journal.len();
    if place == 0 {
        return false;
    }
    let (head, _) = journal.line(place);
    is_end(head.kind)
}

// The want of time: that the clock move on, or at midnight that the day end.
fn time_want(setting: &Setting, floor: &Floor) -> Want
    requires opened { IsFor setting.now.day floor.now }
    ensures { result ≡ time_want floor.now.journal.history }
{
    if floor.next_time(setting).is_some() {
        Want::Time
    } else {
        Want::End
    }
}

// Makes the line of a want that has one.
fn make(setting: &Setting, floor: &mut Floor, till: &mut OneTill, want: Want) -> u32
    requires at_work { AtWork setting.now.day floor.old (numbered till.old) }
    requires line { is_some (line_of setting.now.day floor.old.journal.history want) ≡ true }
    ensures made { IsMade setting.now.day floor.old.journal.history want floor.new.journal.history
        result }
    ensures at_work { AtWork setting.now.day floor.new (numbered till.new) }
{
    match floor.answer(setting, till, want) {
        Ok(place) => place,
        Err(_) => unreachable!(),
    }
}

// Makes the next line, where each message of the rounds reached is taken.
fn make_settling(setting: &Setting, floor: &mut Floor, till: &mut OneTill) -> u32
    requires at_work { AtWork setting.now.day floor.old (numbered till.old) }
    requires lasts { is_ended floor.old.journal.history ≡ false }
    requires all_taken { untaken_reached setting.now.day floor.old.journal.history ≡ None }
    ensures made { IsMade setting.now.day floor.old.journal.history
        (next_want setting.now.day floor.old.journal.history) floor.new.journal.history result }
    ensures at_work { AtWork setting.now.day floor.new (numbered till.new) }
{
    match floor.make_ready(setting, till) {
        Some(place) => place,
        None => {
            let want = time_want(setting, floor);
            make(setting, floor, till, want)
        }
    }
}

// Makes the next line.
fn make_next(setting: &Setting, floor: &mut Floor, till: &mut OneTill) -> u32
    requires at_work { AtWork setting.now.day floor.old (numbered till.old) }
    requires lasts { is_ended floor.old.journal.history ≡ false }
    ensures made { IsMade setting.now.day floor.old.journal.history
        (next_want setting.now.day floor.old.journal.history) floor.new.journal.history result }
    ensures at_work { AtWork setting.now.day floor.new (numbered till.new) }
{
    match floor.untaken_reached(setting) {
        Some(msg) => make(setting, floor, till, Want::In { msg }),
        None => make_settling(setting, floor, till),
    }
}

impl<D: Disk> Store<D> {
    // Whether the day has ended.
    fn has_ended(&self) -> bool
        ensures ended { result ≡ is_ended self.now.history }
        ensures known { IsStore D.seen D.image self.now }
    {
        is_complete(self.floor.journal())
    }

    // One line more, of a day that hasn't ended.
    fn advance(self) -> Result<Store<D>, D>
        requires { is_ended self.history ≡ false }
        ensures made { IfOk result (λ later. (later.day ≡ self.day)
            × (later.history ≡ with_next self.day self.history) × IsStore D.seen D.image later
            × (D.faults later.disk ≡ D.faults self.disk)) }
        ensures fault { OnErr result (D.faults (disk_at_end result)
            ≡ one_more (D.faults self.disk)) }
        ensures moments { LeavesOnly D.clock D.since self.disk (disk_at_end result)
            (λ c. StandsFor self.history c ⊎ StandsFor (with_next self.day self.history) c) }
        ensures time { D.clock (disk_at_end result) ≤ D.clock self.disk + 4 }
        ensures sure { StillLasts D.lasts D.faults self.disk (disk_at_end result) 4 4
            (newest_bytes (with_next self.day self.history)) }
        ensures cut { IsCut D.seen D.cut_after self.disk (disk_at_end result) (is_ok result) 4 4
            (newest_bytes (with_next self.day self.history))
            (newest_by (with_next self.day self.history) (D.seen self.disk)) }
    {
        let Store {
            setting,
            floor,
            till,
            piece,
            end,
            disk,
        } = self;
        let mut floor = floor;
        let mut till = till;
        make_next(&setting, &mut floor, &mut till);
        Store::with_newest(setting, floor, till, piece, end, disk)
    }

    /// Appends one line after the other until the End line stands: each is the line of the least message that can be taken, else of
    /// the first want that is ready, else that of time, or at midnight the End line. Each takes at most four calls of the disk. Where
    /// one fails, the disk is handed back, and the store is to be opened again.
    pub fn go_on(self) -> Result<Store<D>, D>
        ensures goes_on { GoesOn D.seen D.image D.clock D.lasts D.cut_after D.faults self
            result }
        ensures moments { LeavesOnly D.clock D.since self.disk (disk_at_end result)
            (StandsOnTheWay self.day self.history 0) }
    {
        let mut ended = self.has_ended();
        let mut store = self;
        'lines: while !ended {
            match store.advance() {
                Ok(next) => {
                    ended = next.has_ended();
                    store = next;
                }
                Err(disk) => return Err(disk),
            }
        }
        Ok(store)
    }

    /// The lines so far.
    pub fn journal(&self) -> &Journal
        ensures { result.now.history ≡ self.now.history }
    {
        self.floor.journal()
    }

    /// The journal and the disk, once no more lines are to be made.
    pub fn close(self) -> (Journal, D)
        ensures journal { result.0.history ≡ self.history }
        ensures disk { result.1 ≡ self.disk }
        ensures known { IsStore D.seen D.image self }
    {
        let Store {
            setting: _,
            floor,
            till: _,
            piece: _,
            end: _,
            disk,
        } = self;
        (floor.into_journal(), disk)
    }
}
