// A search among bytes for the first one that fails a test, and one such test, for 6 of the paper's replies: the bytes of a content are not under 20h. The test of `byte_high` is
// another.
// Assumes of each call that the bytes it asks lie within those that it is lent: only this crate and others here call it, and they prove that. Each contract cites the walk `first_not` of
// specs/, or that walk by the test of this crate, `first_low`.
#![tactic(auto)]

ghost use Rattle.std.specs.Prelude.{◌≡◌, Bool, true, ℕ, ◌+◌, ◌-◌, ◌<◌, ◌≤◌, leb, length, MatchResult};
ghost use Rattle.meaning.specs.Lines.{least_byte};
ghost use Rattle.byte_low.specs.Seek.{longest, first_not, Passed};
ghost use Rattle.byte_low.specs.Low.{block, first_low};

// "Content bytes are 20h to FFh."
pub const LEAST_BYTE: u8 = 32;

// This many bytes are tested at once; in a long content more, in a short one fewer.
pub const BLOCK: usize = 8;

pub const WIDE_BLOCK: usize = 4 * BLOCK;

const HALF_BLOCK: usize = BLOCK / 2;

// ---- any test of a byte

// What a search asks of each byte.
pub trait ByteTest: Copy {
    ghost passes: { Self → ℕ → Bool };

    fn passes(self, b: u8) -> bool
        ensures { result ≡ passes self b };
}

// Each of the N bytes at an offset passes. The loop has no way out between them, so that they are tested at once. It goes by offsets: of a loop over the part `&s[at..at + N]` the
// compiler makes twice as many instructions for bytes over 7Fh.
#[inline(always)]
pub fn all_pass<T: ByteTest, const N: usize>(test: T, s: &[u8], at: usize) -> bool
    requires { at + N ≤ length s.now }
    ensures { result ≡ true → first_not (T.passes test) s.now at N ≡ at + N }
{
    let mut fit = true;
    for i in 0..N {
        fit &= test.passes(s[at + i]);
    }
    fit
}

// The offset of the first of the k bytes at an offset that fails, or the offset after them.
#[inline(always)]
pub fn seek<T: ByteTest>(test: T, s: &[u8], at: usize, k: usize) -> usize
    requires { at + k ≤ length s.now }
    ensures { result ≡ first_not (T.passes test) s.now at k }
{
    for i in at..at + k {
        if !test.passes(s[i]) {
            return i;
        }
    }
    at + k
}

// Passes over blocks of N bytes, from one offset to another. The offset where no block is left, or that of the first block that has a byte that fails.
#[inline(always)]
pub fn pass_blocks<T: ByteTest, const N: usize>(
    test: T,
    s: &[u8],
    at: usize,
    end: usize,
) -> Result<usize, usize>
    requires { (1 ≤ N) × (N ≤ longest) × (at ≤ end) × (end ≤ length s.now) }
    ensures { MatchResult result (λ i. Passed (T.passes test) s.now at i end × (end < i + N)) (λ i. Passed (T.passes test) s.now at i end) }
{
    // Not by `step_by`: where the loop stops is the answer.
    let mut i = at;
    while i + N <= end {
        if !all_pass::<_, N>(test, s, i) {
            return Err(i);
        }
        i += N;
    }
    Ok(i)
}

// The same offset, whichever of the two it is.
#[inline(always)]
pub fn pass<T: ByteTest, const N: usize>(test: T, s: &[u8], at: usize, end: usize) -> usize
    requires { (1 ≤ N) × (N ≤ longest) × (at ≤ end) × (end ≤ length s.now) }
    ensures { Passed (T.passes test) s.now at result end }
{
    match pass_blocks::<_, N>(test, s, at, end) {
        Ok(i) => i,
        Err(i) => i,
    }
}

// The same offset as `seek`, among no more bytes than a block has: the first and the last half of a block are tested at once, both for one branch.
fn first_of_few<T: ByteTest>(test: T, s: &[u8], at: usize, k: usize) -> usize
    requires { (k ≤ block) × (at + k ≤ length s.now) }
    ensures { result ≡ first_not (T.passes test) s.now at k }
{
    let end = at + k;
    if HALF_BLOCK <= k {
        if all_pass::<_, HALF_BLOCK>(test, s, at)
            & all_pass::<_, HALF_BLOCK>(test, s, end - HALF_BLOCK)
        {
            return end;
        }
    }
    seek(test, s, at, k)
}

// The same offset. Bytes without a fault are the rule, so less is left to be tested byte by byte; most contents of a correction have no block.
pub fn first<T: ByteTest>(test: T, s: &[u8], at: usize, k: usize) -> usize
    requires { at + k ≤ length s.now }
    ensures { result ≡ first_not (T.passes test) s.now at k }
{
    if k < BLOCK {
        return first_of_few(test, s, at, k);
    }
    let end = at + k;
    let wide = pass::<_, WIDE_BLOCK>(test, s, at, end);
    let i = pass::<_, BLOCK>(test, s, wide, end);
    seek(test, s, i, end - i)
}

// ---- the test of a content byte

#[derive(Clone, Copy)]
struct NotLow;

impl ByteTest for NotLow {
    ghost passes = { λ _. leb least_byte };

    fn passes(self, b: u8) -> bool {
        LEAST_BYTE <= b
    }
}

// The offset of the first byte under 20h among the k bytes at an offset, or the offset after them.
pub fn seek_low(s: &[u8], at: usize, k: usize) -> usize
    requires { at + k ≤ length s.now }
    ensures { result ≡ first_low s.now at k }
{
    seek(NotLow, s, at, k)
}

// The same offset, in a content that may be long: the blocks before the one that is not clean are passed over.
pub fn find_low(s: &[u8], at: usize, k: usize) -> usize
    requires { at + k ≤ length s.now }
    ensures { result ≡ first_low s.now at k }
{
    let end = at + k;
    let i = pass::<_, WIDE_BLOCK>(NotLow, s, at, end);
    seek(NotLow, s, i, end - i)
}

// The same offset. A content without a fault is the rule.
pub fn first_low(s: &[u8], at: usize, k: usize) -> usize
    requires { at + k ≤ length s.now }
    ensures { result ≡ first_low s.now at k }
{
    first(NotLow, s, at, k)
}

// None of the bytes from one offset to another is under 20h. The last block may start before the first of them, and then asks more.
pub fn clean_content(s: &[u8], from: usize, end: usize) -> bool
    requires { (block ≤ end) × (from ≤ end) × (end ≤ length s.now) }
    ensures { result ≡ true → first_low s.now from (end - from) ≡ end }
{
    if end <= from + BLOCK {
        return all_pass::<_, BLOCK>(NotLow, s, end - BLOCK);
    }
    // By loops of its own: with `pass_blocks` judging 512 lines of 40 bytes takes 2 % more instructions.
    let mut i = from;
    while i + WIDE_BLOCK <= end {
        if all_pass::<_, WIDE_BLOCK>(NotLow, s, i) {
            i += WIDE_BLOCK;
        } else {
            return false;
        }
    }
    while i + BLOCK < end {
        if all_pass::<_, BLOCK>(NotLow, s, i) {
            i += BLOCK;
        } else {
            return false;
        }
    }
    all_pass::<_, BLOCK>(NotLow, s, end - BLOCK)
}
