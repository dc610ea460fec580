//! Why a store isn't open.

use cash_amounts::Memory;

/// Why a store isn't open. The disk is handed back; nothing was written on it.
#[derive(Drop)]
pub enum OpenFault<D> {
    /// A call of the disk failed.
    Fault { disk: D },
    /// The bytes of the disk stand for no legal journal of the day. At this place, counted from 1, no line of one stands.
    Foreign { disk: D, place: u32 },
    /// Memory was wanting.
    Memory { disk: D, memory: Memory },
}
