// The serial cable of appendix A: the records of sender and receiver, what their calls answer, and the limits. The definitions are in specs/, their laws in proofs/.
#![tactic(auto)]

// "Up to 128 data bytes".
pub const DATA: usize = 128;

// Count and label stand before the data of a block, the CRC and 0Dh after them.
pub const BLOCK_LEAD: usize = 4;

pub const BLOCK_TAIL: usize = 5;

// The greatest length of a block.
pub const BLOCK: usize = 137;

// The byte between two lines, in the place of their 0Dh 0Ah.
pub const SEPARATOR: u8 = 0x1C;

// The greatest sequence count: "count 1 to 9 then 1 again".
pub const COUNT: usize = 9;

// The label of a block, which is named by its last digit.
#[derive(Clone, Copy, PartialEq, Eq)]
pub enum BlockLabel {
    // The first block of a set.
    B00,
    // One between the first and the last.
    B01,
    // The last block.
    B02,
}

// The sender's one state record, six numbers. Six zeros are a fresh link.
#[repr(C)]
#[derive(Clone, Copy)]
pub struct Link {
    // 0 idle, 1 a set is under way, 2 delivered, 3 given up; any other number counts as idle.
    pub phase: usize,
    // How many blocks the set has.
    pub blocks: usize,
    // 0 and 1 are the first attempt, any more is the second.
    pub attempt: usize,
    // The number of the block that was sent last, from 0.
    pub block: usize,
    // Whether an error was heard for this block: 0 no, any other number yes.
    pub errors: usize,
    // The sequence count of the block that was sent last.
    pub count: usize,
}

impl Link {
    pub const IDLE: usize = 0;

    pub const UNDER_WAY: usize = 1;

    pub const DELIVERED: usize = 2;

    pub const GIVEN_UP: usize = 3;
}

// What the sender has to do next.
#[derive(Clone, Copy)]
pub enum Action {
    // No set is under way.
    Nothing,
    // Send this block, from 0, with this sequence count.
    Send { block: usize, count: usize },
    // The set is delivered.
    Delivered,
    // The set is given up.
    GivenUp,
}

// The link after a call, and what has to be done next.
#[derive(Drop)]
pub struct Turned {
    pub link: Link,
    pub action: Action,
}

// The receiver's state, four numbers. Four zeros are a fresh receiver.
#[repr(C)]
#[derive(Clone, Copy)]
pub struct Receiver {
    // Whether a block was ever taken: 0 no, any other number yes.
    pub started: usize,
    // The sequence count of the block that was taken last.
    pub last: usize,
    // Whether a set is open, its B00 taken and its B02 not: 0 no, any other number yes. (In C it is called `open`, a word that the language of the proofs has for itself.)
    pub partial: usize,
    // How many bytes of the set stand in the buffer.
    pub used: usize,
}

// What became of a block that was not refused.
#[derive(Clone, Copy)]
pub enum BlockOutcome {
    Taken,
    // Acknowledged again: nothing moved.
    Again,
    // Taken, and the set is whole.
    Whole,
}

// The same, and the receiver's state after it.
#[derive(Drop)]
pub struct Taken {
    pub what: BlockOutcome,
    pub receiver: Receiver,
}
