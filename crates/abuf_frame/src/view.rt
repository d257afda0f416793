// What contracts see in a pass. No value of these types but `FrameSize` is ever made: a clause reads an array of them as a list.

/// How far an entry has come.
pub enum Stage {
    /// The number is the pass's, and its node is untouched.
    Claimed,
    /// The payload is stored.
    Filled { pixel: u32, payload: u64 },
    /// The number is the head of its pixel's list, or was; `old` is the head that it replaced. The node's next is not stored.
    Swapped { pixel: u32, payload: u64, old: u64 },
    /// The node's next is stored, and is `old`.
    Linked { pixel: u32, payload: u64, old: u64 },
    /// There is no node of this number.
    Lost,
}

/// A claimed number.
pub struct Entry {
    /// The number, from 0 on. A number below the count of nodes has a node.
    pub number: u64,
    /// How far it has come.
    pub stage: Stage,
}

/// A node that a walk has passed, with its payload.
pub struct Passed {
    /// The number of the node.
    pub node: u64,
    /// The payload that was loaded from it.
    pub payload: u64,
}

/// A walk along the list of a pixel.
pub struct Walk {
    /// The pixel whose list it is.
    pub pixel: u32,
    /// The entries that have to be in the list.
    pub due: [Entry; 0],
    /// The nodes that were passed, in order.
    pub passed: [Passed; 0],
    /// The word at which it stands.
    pub cursor: u64,
    /// The payload of the node at the cursor, once it is loaded.
    pub noted: Option<u64>,
    /// Whether its last load found the mark.
    pub unlinked: bool,
}

/// What a pass knows.
pub struct View {
    /// How many numbers it may still claim.
    pub credit: u64,
    /// The numbers that it claimed, and those of the passes that were joined into it.
    pub entries: [Entry; 0],
    /// Linked entries that it knows from the pass that it was split from.
    pub told: [Entry; 0],
    /// The greatest count that it has seen.
    pub seen: u64,
    /// The walks that it made.
    pub walks: [Walk; 0],
}

/// The number of pixels and of nodes, which the rule reads.
#[derive(Drop)]
pub struct FrameSize {
    /// From 1 to 4194304.
    pub pixels: u32,
    /// From 1 to 8388608.
    pub nodes: u32,
}
