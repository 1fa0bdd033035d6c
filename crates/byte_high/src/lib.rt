// The bytes of a content, and of all lines of a set: which is the first over 7Fh, for 24 of the paper's replies.
// Assumes of each call that the bytes it asks lie within those that it is lent: only other crates here call it, and they prove that. Each contract cites the walk
// `first_high` of specs/. The search itself is that of `byte_low`, by another test.
#![tactic(auto)]

ghost use Rattle.std.specs.Prelude.{◌≡◌, true, ◌+◌, ◌-◌, ◌≤◌, length};
ghost use Rattle.byte_high.specs.High.{seven_bits, first_high, plain_front};

use byte_low::{BLOCK, ByteTest, WIDE_BLOCK, all_pass, first, pass, pass_blocks, seek};

// "No content byte anywhere in it may exceed 7Fh."
const MOST_SEVEN_BITS: u8 = 127;

// Among all bytes of a set this many are tested at once.
const LONG_BLOCK: usize = 2 * WIDE_BLOCK;

#[derive(Clone, Copy)]
struct SevenBits;

impl ByteTest for SevenBits {
    ghost passes = { λ _. seven_bits };

    fn passes(self, b: u8) -> bool {
        b <= MOST_SEVEN_BITS
    }
}

// The offset of the first byte over 7Fh among the k bytes at an offset, or the offset after them. Bytes without a fault are the rule.
pub fn first_high(s: &[u8], at: usize, k: usize) -> usize
    requires { at + k ≤ length s.now }
    ensures { result ≡ first_high s.now at k }
{
    first(SevenBits, s, at, k)
}

// No byte is over 7Fh: for bytes that most often have none. The last block may start before the first byte that is left, and then asks more.
pub fn all_plain(s: &[u8]) -> bool
    ensures { result ≡ true → first_high s.now 0 (length s.now) ≡ length s.now }
{
    let end = s.len();
    if end < BLOCK {
        return seek(SevenBits, s, 0, end) == end;
    }
    let Ok(wide) = pass_blocks::<_, WIDE_BLOCK>(SevenBits, s, 0, end - 1) else {
        return false;
    };
    let Ok(_) = pass_blocks::<_, BLOCK>(SevenBits, s, wide, end - 1) else {
        return false;
    };
    all_pass::<_, BLOCK>(SevenBits, s, end - BLOCK)
}

// The offset after some blocks that have no byte over 7Fh, from an offset on, for what has to come to the bytes over 7Fh of a whole set: if these are few, most bytes are passed over in long
// blocks.
pub fn pass_plain(s: &[u8], at: usize) -> usize
    requires { at ≤ length s.now }
    ensures { (at ≤ result) × (result ≤ length s.now) × (first_high s.now at (result - at) ≡ result) }
{
    let long = pass::<_, LONG_BLOCK>(SevenBits, s, at, s.len());
    pass::<_, BLOCK>(SevenBits, s, long, s.len())
}

// How many bytes are in front of the first one over 7Fh, among all of these; `pass_plain` may stop before it.
pub fn plain_front(s: &[u8]) -> usize
    ensures { result ≡ plain_front s.now }
{
    let from = pass_plain(s, 0);
    seek(SevenBits, s, from, s.len() - from)
}
