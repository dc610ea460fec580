//! What the events of a live day make on its floor: a message that has come in, a stop, and the end of the day.
ghost use Rattle.std.specs.Prelude.{◌≡◌, [], length, suc, true};
ghost use Rattle.live_order.specs.LiveOrder.{live};
ghost use Rattle.machine.specs.Legal.{is_complete};
ghost use Rattle.settle_floor.specs.Floors.{AtWork};
ghost use Rattle.live_day.specs.LiveFloors.{HasMade, MessageComes, StopComes, came_in};

use account_book::Till;
use cash_amounts::{MessageNumber, Seconds};
use rule_book::Setting;
use settle_floor::Floor;

/// Takes the last message of the day, number n, and lets what can settle then settle. Takes no memory.
pub(crate) fn take_last<T: Till>(
    setting: &Setting,
    floor: &mut Floor,
    till: &mut T,
    n: MessageNumber,
)
    requires number { n ≡ length setting.now.day.messages }
    requires comes { MessageComes setting.now.day floor.old (T.holdings till.old) }
    ensures { HasMade setting.now.day floor.new (T.holdings till.new) }
{
    floor.arrive(setting, n);
    floor.take_in(setting, till, n);
}

/// Lets the clock come to the last stop of the day, at this time, and what can settle then settle. Takes no memory.
pub(crate) fn reach_last<T: Till>(setting: &Setting, floor: &mut Floor, till: &mut T, time: Seconds)
    requires { StopComes setting.now.day time floor.old (T.holdings till.old) }
    ensures { HasMade setting.now.day floor.new (T.holdings till.new) }
{
    floor.stop(time);
    floor.come_to(setting, till, time);
}

/// Makes the rest of the lines, where the day is over. Takes no memory.
pub(crate) fn run_out<T: Till>(setting: &Setting, floor: &mut Floor, till: &mut T)
    requires { HasMade setting.now.day floor.old (T.holdings till.old) }
    ensures lines { floor.new.journal.history
        ≡ live setting.now.day (suc (came_in setting.now.day)) [] }
    ensures complete { is_complete floor.new.journal.history ≡ true }
    ensures at_work { AtWork setting.now.day floor.new (T.holdings till.new) }
{
    floor.run_out(setting, till);
}
