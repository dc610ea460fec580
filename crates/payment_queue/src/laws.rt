//! What the words of the queue's contracts mean, as contracts of functions that do nothing.
ghost use Rattle.payment_queue.specs.QueueLaws.{BlockersStandFirst, FirstIsForemost, ForemostIsFirst, SlotBlockersStandFirst};

/// The foremost of some rows is one of them, and none is ahead of it; there is none where there are no rows.
pub fn foremost_is_first()
    ensures { ForemostIsFirst }
{}

/// A row that is ahead of all the others is the foremost of them.
pub fn first_is_foremost()
    ensures { FirstIsForemost }
{}

/// A blocker stands on the account and before the item, and none that does is ahead of it; there is none where nothing on the
/// account stands before the item.
pub fn blockers_stand_first()
    ensures { BlockersStandFirst }
{}

/// The same of the blocker of the row at a slot.
pub fn slot_blockers_stand_first()
    ensures { SlotBlockersStandFirst }
{}
