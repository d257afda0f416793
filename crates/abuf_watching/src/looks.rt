// How looks ended.

/// How many looks ended in which way, and how many numbers had been claimed meanwhile, by all passes of the frame: as many entries
/// were there or on their way.
#[derive(Clone, Copy, Debug, PartialEq, Eq)]
pub struct Looks {
    /// The count before the first look.
    pub first: u64,
    /// The count at the last look.
    pub last: u64,
    /// Looks that reached the end of the list.
    pub whole: u64,
    /// Looks that met a node that wasn't linked yet.
    pub unlinked: u64,
    /// Looks that had too little room.
    pub more: u64,
}
