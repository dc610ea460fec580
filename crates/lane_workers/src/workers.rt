// Workers: each takes the messages of its lane in a round, and then scans once over their items.
ghost use Rattle.std.specs.Prelude.{◌≡◌, ℕ, true, ◌+◌, ◌-◌, ◌*◌, ◌<◌, ◌≤◌, ◌^◌, ◌&&◌, IsSome, length, not};
ghost use denote.Param.Send.{IsSync};
ghost use Rattle.batch_records.specs.Sound.{is_sound};
ghost use Rattle.commit_journal.specs.Histories.{Begins};
ghost use Rattle.journal_pass.specs.Known.{with_lines};
ghost use Rattle.machine.specs.Records.Messages.{entries};
ghost use Rattle.machine.specs.Telling.History.{taken};
ghost use Rattle.machine.specs.Stages.Pending.{item};
ghost use Rattle.machine.specs.Making.Wants.{entry_of, message_of};
ghost use Rattle.lane_workers.specs.Stints.{AreLanesOf, is_idle, stint};
ghost use Rattle.lane_workers.specs.Seen.{AreFirstTaken, AreLanesTaken, GoesOn, HadChance, HadChances, HadLanesChance, HadTurns, HasBegun, IsNextOfSender};

use crate::lanes::Lanes;
use commit_journal::Want;
use journal_pass::Pass;
use lock_book::{Hall, HallName, HeldFloor, Needs};
use outside_io::Gate;
use rule_book::parts::{entry_count, message_count};
use rule_book::{Item, Setting};
use std::sync::Wait;
use std::thread::{Threads, join};

// With so many items a worker lets go of the floor.
const RUN: u32 = 4096;

// Of a day with more stops than that, a round of fewer messages than those is left to one thread: to start and end another takes some
// fifty microseconds, as long as some twenty messages.
const MANY_STOPS: usize = 1000;

const FEW_MESSAGES: u32 = 64;

// Of how many items a message is, with entry 0.
fn items_of(setting: &Setting, n: u32) -> u32 {
    entry_count(setting, n).saturating_add(1)
}

// Where a run from a place on ends: with the message that brings its items to the greatest number, or with the last.
fn run_end(setting: &Setting, stint: &[u32], place: usize) -> usize
    requires { place < length stint.now }
    ensures further { place < result }
    ensures within { result ≤ length stint.now }
{
    let mut end = place + 1;
    let mut items = items_of(setting, stint[place]);
    'messages: while end < stint.len() && items < RUN {
        items = items.saturating_add(items_of(setting, stint[end]));
        end += 1;
    }
    end
}

// Takes a message, which is the next of its sender and of a round that is reached.
fn take_one<H: HallName, G: Gate>(
    held: &mut HeldFloor<'_, H>,
    hall: &Hall<H>,
    pass: &mut Pass,
    n: u32,
    gate: &G,
)
    requires table { pass.old.table ≡ H.table }
    requires next { IsNextOfSender H.day pass.old.lines n }
    ensures pass { pass.new ≡ with_lines pass.old pass.new.lines }
    ensures seen { GoesOn H.day pass.old.lines pass.new.lines }
    ensures taken { IsSome (taken pass.new.lines n) }
{
    held.take(hall, pass, n, gate);
}

// Takes the messages of a lane in a round from a place on, in file order, as far as a run goes, and gives the place after them.
fn take_run<H: HallName, R: Wait, G: Gate>(
    rt: &R,
    hall: &Hall<H>,
    lanes: &Lanes,
    pass: &mut Pass,
    round: u32,
    place: usize,
    gate: &G,
) -> usize
    requires table { pass.old.table ≡ H.table }
    requires lanes { AreLanesOf H.day lanes.now }
    requires lane { pass.old.lane < lanes.now.workers }
    requires round { HasBegun H.day round pass.old.lines }
    requires place { place < length (stint H.day lanes.now.workers round pass.old.lane) }
    requires before { AreFirstTaken H.day lanes.now.workers round pass.old.lane place
        pass.old.lines }
    ensures pass { pass.new ≡ with_lines pass.old pass.new.lines }
    ensures seen { GoesOn H.day pass.old.lines pass.new.lines }
    ensures further { (place < result)
        × (result ≤ length (stint H.day lanes.now.workers round pass.old.lane)) }
    ensures taken { AreFirstTaken H.day lanes.now.workers round pass.old.lane result pass.new.lines }
{
    let lane = pass.lane();
    let stint = lanes.stint(hall.setting(), round, lane);
    let end = run_end(hall.setting(), stint, place);
    let needs = Needs::of_intakes(hall.setting(), &stint[place..end]);
    let mut held = hall.hold(rt, lane, needs, gate);
    for i in place..end {
        take_one(&mut held, hall, pass, stint[i], gate);
    }
    end
}

// Takes the messages of a lane in a round, in file order.
fn take_lane<H: HallName, R: Wait, G: Gate>(
    rt: &R,
    hall: &Hall<H>,
    lanes: &Lanes,
    pass: &mut Pass,
    round: u32,
    gate: &G,
)
    requires table { pass.old.table ≡ H.table }
    requires lanes { AreLanesOf H.day lanes.now }
    requires lane { pass.old.lane < lanes.now.workers }
    requires round { HasBegun H.day round pass.old.lines }
    ensures pass { pass.new ≡ with_lines pass.old pass.new.lines }
    ensures seen { GoesOn H.day pass.old.lines pass.new.lines }
    ensures taken { AreLanesTaken H.day lanes.now.workers round pass.old.lane (pass.old.lane + 1)
        pass.new.lines }
{
    let count = lanes.stint(hall.setting(), round, pass.lane()).len();
    let mut place = 0;
    'runs: while place < count {
        place = take_run(rt, hall, lanes, pass, round, place, gate);
    }
}

// The item after that of a want.
fn behind(want: Want) -> Item
    requires { entry_of want < 2 ^ 32 - 1 }
    ensures { result ≡ record { msg = message_of want; entry = entry_of want + 1 } }
{
    match want {
        Want::Book { msg, entry } => Item {
            msg,
            entry: entry + 1,
        },
        Want::In { msg }
        | Want::All { msg }
        | Want::Expire { msg }
        | Want::Ask { msg }
        | Want::Cover { msg }
        | Want::Refuse { msg } => Item { msg, entry: 1 },
        Want::Time | Want::Sweep { .. } | Want::End => Item { msg: 0, entry: 1 },
    }
}

// Gives the first item of a message that the floor names, from this entry on, its chance. Gives the entry after it, and the end
// where none is named.
fn scan_entry<H: HallName, G: Gate>(
    held: &mut HeldFloor<'_, H>,
    hall: &Hall<H>,
    pass: &mut Pass,
    n: u32,
    entry: u32,
    end: u32,
    gate: &G,
) -> u32
    requires table { pass.old.table ≡ H.table }
    requires sound { is_sound H.day ≡ true }
    requires message { (0 < n) × (n ≤ length H.day.messages) }
    requires end { (end ≡ length (entries H.day n) + 1) × (entry < end) }
    ensures pass { pass.new ≡ with_lines pass.old pass.new.lines }
    ensures seen { GoesOn H.day pass.old.lines pass.new.lines }
    ensures further { (entry < result) × (result ≤ end) }
    ensures chance { (k : ℕ) → entry ≤ k → k < result
        → HadChance H.day pass.old.lines pass.new.lines (item n k) }
{
    if let Some(want) = held.hint(hall, pass, Item { msg: n, entry }) {
        let next = behind(want);
        if next.msg == n {
            held.step(hall, pass, want, gate);
            return next.entry;
        }
    }
    end
}

// Gives each item of a message one chance, by entry.
fn scan_message<H: HallName, G: Gate>(
    held: &mut HeldFloor<'_, H>,
    hall: &Hall<H>,
    pass: &mut Pass,
    n: u32,
    gate: &G,
)
    requires table { pass.old.table ≡ H.table }
    requires sound { is_sound H.day ≡ true }
    requires message { (0 < n) × (n ≤ length H.day.messages) }
    ensures pass { pass.new ≡ with_lines pass.old pass.new.lines }
    ensures seen { GoesOn H.day pass.old.lines pass.new.lines }
    ensures chance { (k : ℕ) → k ≤ length (entries H.day n)
        → HadChance H.day pass.old.lines pass.new.lines (item n k) }
{
    let end = entry_count(hall.setting(), n) + 1;
    let mut entry = 0;
    'items: while entry < end {
        entry = scan_entry(held, hall, pass, n, entry, end, gate);
    }
}

// Gives each item of the lane's messages in the round one chance, by message and entry, from a place on as far as a run goes, and
// gives the place after them.
fn scan_run<H: HallName, R: Wait, G: Gate>(
    rt: &R,
    hall: &Hall<H>,
    lanes: &Lanes,
    pass: &mut Pass,
    round: u32,
    place: usize,
    gate: &G,
) -> usize
    requires table { pass.old.table ≡ H.table }
    requires lanes { AreLanesOf H.day lanes.now }
    requires lane { pass.old.lane < lanes.now.workers }
    requires round { round ≤ length H.day.stops }
    requires place { place < length (stint H.day lanes.now.workers round pass.old.lane) }
    ensures pass { pass.new ≡ with_lines pass.old pass.new.lines }
    ensures seen { GoesOn H.day pass.old.lines pass.new.lines }
    ensures further { (place < result)
        × (result ≤ length (stint H.day lanes.now.workers round pass.old.lane)) }
    ensures chances { HadChances H.day lanes.now.workers round pass.old.lane place result
        pass.old.lines pass.new.lines }
{
    let lane = pass.lane();
    let stint = lanes.stint(hall.setting(), round, lane);
    let end = run_end(hall.setting(), stint, place);
    let needs = Needs::of_items(hall.setting(), &stint[place..end]);
    let mut held = hall.hold(rt, lane, needs, gate);
    for at in place..end {
        scan_message(&mut held, hall, pass, stint[at], gate);
    }
    end
}

// Gives each item of the lane's messages in the round one chance. Items of others are their own lanes', or left for the end of the
// round.
fn scan<H: HallName, R: Wait, G: Gate>(
    rt: &R,
    hall: &Hall<H>,
    lanes: &Lanes,
    pass: &mut Pass,
    round: u32,
    gate: &G,
)
    requires table { pass.old.table ≡ H.table }
    requires lanes { AreLanesOf H.day lanes.now }
    requires lane { pass.old.lane < lanes.now.workers }
    requires round { round ≤ length H.day.stops }
    ensures pass { pass.new ≡ with_lines pass.old pass.new.lines }
    ensures seen { GoesOn H.day pass.old.lines pass.new.lines }
    ensures chances { HadLanesChance H.day lanes.now.workers round pass.old.lane pass.old.lines
        pass.new.lines }
{
    let count = lanes.stint(hall.setting(), round, pass.lane()).len();
    let mut place = 0;
    'runs: while place < count {
        place = scan_run(rt, hall, lanes, pass, round, place, gate);
    }
}

// What one worker does in a round.
fn work_lane<H: HallName, R: Wait, G: Gate>(
    rt: &R,
    hall: &Hall<H>,
    lanes: &Lanes,
    pass: &mut Pass,
    round: u32,
    gate: &G,
)
    requires table { pass.old.table ≡ H.table }
    requires lanes { AreLanesOf H.day lanes.now }
    requires lane { pass.old.lane < lanes.now.workers }
    requires round { HasBegun H.day round pass.old.lines }
    ensures pass { pass.new ≡ with_lines pass.old pass.new.lines }
    ensures seen { GoesOn H.day pass.old.lines pass.new.lines }
    ensures taken { AreLanesTaken H.day lanes.now.workers round pass.old.lane (pass.old.lane + 1)
        pass.new.lines }
    ensures turns { HadTurns H.day lanes.now.workers round pass.old.lane (pass.old.lane + 1)
        pass.old.lines pass.new.lines }
{
    take_lane(rt, hall, lanes, pass, round, gate);
    scan(rt, hall, lanes, pass, round, gate);
}

// Whether of these lanes, from the first on and below the end, some before the middle and some from it on have messages in the round.
fn are_both_busy(
    lanes: &Lanes,
    setting: &Setting,
    round: u32,
    from: u32,
    middle: u32,
    end: u32,
) -> bool
    requires lanes { AreLanesOf setting.now.day lanes.now }
    requires round { round ≤ length setting.now.day.stops }
    requires range { (from ≤ middle) × (middle ≤ end) × (end ≤ lanes.now.workers) }
    ensures { result
        ≡ (not (is_idle setting.now.day lanes.now.workers round from middle)
        && not (is_idle setting.now.day lanes.now.workers round middle end)) }
{
    !lanes.is_idle(setting, round, from, middle) && !lanes.is_idle(setting, round, middle, end)
}

// How many messages a round has.
fn count_of(lanes: &Lanes, setting: &Setting, round: u32) -> u32
    requires lanes { AreLanesOf setting.now.day lanes.now }
    requires round { round ≤ length setting.now.day.stops }
{
    let first = lanes.first(setting, round);
    let next = round.saturating_add(1);
    let end = if next as usize <= setting.day.stops().len() {
        lanes.first(setting, next)
    } else {
        message_count(setting).saturating_add(1)
    };
    end.saturating_sub(first)
}

// Whether the round has few messages, on a day with many stops.
fn is_small(lanes: &Lanes, setting: &Setting, round: u32) -> bool
    requires lanes { AreLanesOf setting.now.day lanes.now }
    requires round { round ≤ length setting.now.day.stops }
{
    MANY_STOPS < setting.day.stops().len() && count_of(lanes, setting, round) < FEW_MESSAGES
}

// Whether a thread is worth starting for one half of these lanes: both halves have messages in the round, and it isn't small.
fn is_shared(lanes: &Lanes, setting: &Setting, round: u32, from: u32, middle: u32, end: u32) -> bool
    requires lanes { AreLanesOf setting.now.day lanes.now }
    requires round { round ≤ length setting.now.day.stops }
    requires range { (from ≤ middle) × (middle ≤ end) × (end ≤ lanes.now.workers) }
{
    !is_small(lanes, setting, round) && are_both_busy(lanes, setting, round, from, middle, end)
}

// What the workers of these lanes do in a round, from the pass's lane on and below the end. A lane without messages in the round
// has no worker; of the others the last works in this thread, and each other one in a thread of its own, or in this one too where the round
// is small.
pub(crate) fn work_lanes<H: HallName + Send + Sync, R: Threads + Wait + Sync, G: Gate + Sync>(
    rt: &R,
    hall: &Hall<H>,
    lanes: &Lanes,
    mut pass: Pass,
    round: u32,
    end: u32,
    gate: &G,
) -> Pass
    requires table { pass.table ≡ H.table }
    requires lanes { AreLanesOf H.day lanes.now }
    requires lane { (pass.lane < end) × (end ≤ lanes.now.workers) }
    requires round { HasBegun H.day round pass.lines }
    ensures pass { result ≡ with_lines pass result.lines }
    ensures seen { GoesOn H.day pass.lines result.lines }
    ensures taken { AreLanesTaken H.day lanes.now.workers round pass.lane end result.lines }
    ensures turns { HadTurns H.day lanes.now.workers round pass.lane end pass.lines result.lines }
{
    let lane = pass.lane();
    if lanes.is_idle(hall.setting(), round, lane, end) {
        return pass;
    }
    if end - lane < 2 {
        work_lane(rt, hall, lanes, &mut pass, round, gate);
        return pass;
    }
    let middle = lane + (end - lane) / 2;
    let other = hall.fork(&mut pass, middle);
    if !is_shared(lanes, hall.setting(), round, lane, middle, end) {
        let mut first = work_lanes(rt, hall, lanes, pass, round, middle, gate);
        let second = work_lanes(rt, hall, lanes, other, round, end, gate);
        hall.join(&mut first, second);
        return first;
    }
    let (mut one, two) = join(
        rt,
        || -> Pass
            requires { IsSync R.row × (pass.table ≡ H.table) × AreLanesOf H.day lanes.now
                × (pass.lane < middle) × (middle ≤ lanes.now.workers)
                × HasBegun H.day round pass.lines }
            ensures pass { result ≡ with_lines pass result.lines }
            ensures seen { GoesOn H.day pass.lines result.lines }
            ensures taken { AreLanesTaken H.day lanes.entry.now.workers round pass.lane middle
                result.lines }
            ensures turns { HadTurns H.day lanes.entry.now.workers round pass.lane middle
                pass.lines result.lines }
        { work_lanes(rt, hall, lanes, pass, round, middle, gate) },
        || -> Pass
            requires { IsSync R.row × (other.table ≡ H.table) × AreLanesOf H.day lanes.now
                × (other.lane < end) × (end ≤ lanes.now.workers)
                × HasBegun H.day round other.lines }
            ensures pass { result ≡ with_lines other result.lines }
            ensures seen { GoesOn H.day other.lines result.lines }
            ensures taken { AreLanesTaken H.day lanes.entry.now.workers round other.lane end
                result.lines }
            ensures turns { HadTurns H.day lanes.entry.now.workers round other.lane end
                other.lines result.lines }
        { work_lanes(rt, hall, lanes, other, round, end, gate) },
    );
    hall.join(&mut one, two);
    one
}
