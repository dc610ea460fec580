//! What holds of the reasons of items.
ghost use Rattle.day_reasons.specs.Laws.{PendingItemsWait, ReasonsWhileUnmade};

/// An item that waits is told with a reason exactly while the machine makes no line of the want that would settle it.
pub fn reasons_while_unmade()
    ensures { ReasonsWhileUnmade }
{}

/// No pending item of a legal journal is passed over: its message is told of with its items, and it waits.
pub fn pending_items_wait()
    ensures { PendingItemsWait }
{}
