//! What can be wrong with a net.

/// The first fault of a net, or want of memory.
#[derive(Clone, Copy, Debug, PartialEq, Eq)]
pub enum NetFault {
    /// There was too little memory to tell.
    NoMemory,
    /// The least number that is a wire which doesn't stand exactly once on each side, or that a node names and the list lacks.
    LooseWire(u32),
    /// The least node that misses its row, where the kinds or types of its wires miss it.
    TypeClash(u32),
    /// The least node that misses its row, where only the depths of its wires miss it.
    DepthClash(u32),
    /// The number of Root nodes, where it isn't 1.
    RootCount(u32),
}
