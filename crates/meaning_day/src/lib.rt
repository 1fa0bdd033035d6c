// The day file: what its index has of a set, and its limits. The definitions are in specs/, their laws in proofs/.
#![tactic(auto)]

// "At most 2,048 sets".
pub const SETS: usize = 2_048;

// An entry is this many numbers of a lent slice: offset, length, type, place.
pub const ENTRY_NUMBERS: usize = 4;

// A set of a day file: its offset, its length, the number of its type, and the place of its 3000 content. Offset and place count in the file.
#[derive(Clone, Copy)]
pub struct DayEntry {
    pub offset: usize,
    pub length: usize,
    pub settype: usize,
    pub place: usize,
}
