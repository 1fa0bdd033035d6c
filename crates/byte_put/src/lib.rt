// Bytes put into a lent buffer: digits of a number, a copy, and zeros.
// Assumes of each call that what it puts lies within the buffer: only other crates here call it, and they prove that. The contract says every byte of the buffer afterwards.
#![tactic(auto)]

ghost use Rattle.std.specs.Prelude.{◌≡◌, ◌++◌, ◌+◌, ◌≤◌, length, take, drop, replicate};
ghost use Rattle.meaning.specs.Digits.{digits};
ghost use Rattle.byte_put.specs.Places.{word, half_word, over};

// This many bytes are copied at once.
const WORD: usize = 8;

const HALF_WORD: usize = 4;

// Writes the last k digits of n at an offset, the last one first.
pub fn put_digits(s: &mut [u8], at: usize, k: usize, n: usize)
    requires { at + k ≤ length s.old }
    ensures { s.new ≡ over at (digits k n) s.old }
{
    let mut left = n;
    for i in (0..k).rev() {
        let rest = left / 10;
        s[at + i] = meaning::DIGIT_ZERO + (left - rest * 10) as u8;
        left = rest;
    }
}

// A word to the front. All its bytes are read before the first is stored, so that they are moved at once. One function for both sizes, by `dst[..N].copy_from_slice(&src[..N])`, takes half as
// many instructions again for 40 bytes.
fn copy_word(dst: &mut [u8], src: &[u8])
    requires { (word ≤ length src.now) × (word ≤ length dst.old) }
    ensures { dst.new ≡ take word src.now ++ drop word dst.old }
{
    let a = src[0];
    let b = src[1];
    let c = src[2];
    let d = src[3];
    let e = src[4];
    let f = src[5];
    let g = src[6];
    let h = src[7];
    dst[0] = a;
    dst[1] = b;
    dst[2] = c;
    dst[3] = d;
    dst[4] = e;
    dst[5] = f;
    dst[6] = g;
    dst[7] = h;
}

// Half a word to the front, in the same way.
fn copy_half(dst: &mut [u8], src: &[u8])
    requires { (half_word ≤ length src.now) × (half_word ≤ length dst.old) }
    ensures { dst.new ≡ take half_word src.now ++ drop half_word dst.old }
{
    let a = src[0];
    let b = src[1];
    let c = src[2];
    let d = src[3];
    dst[0] = a;
    dst[1] = b;
    dst[2] = c;
    dst[3] = d;
}

// A word or more: the last word, then word by word from the front on until it is reached.
fn copy_words(dst: &mut [u8], src: &[u8])
    requires { (word ≤ length src.now) × (length src.now ≤ length dst.old) }
    ensures { dst.new ≡ src.now ++ drop (length src.now) dst.old }
{
    let last = src.len() - WORD;
    copy_word(&mut dst[last..], &src[last..]);
    // Not by `step_by`, which has one more way out at each turn, for an offset that does not fit any more.
    let mut i = 0;
    while i < last {
        copy_word(&mut dst[i..], &src[i..]);
        i += WORD;
    }
}

// Half a word to a word: the last half, then the first.
fn copy_halves(dst: &mut [u8], src: &[u8])
    requires { (half_word ≤ length src.now) × (length src.now ≤ word) × (length src.now ≤ length dst.old) }
    ensures { dst.new ≡ src.now ++ drop (length src.now) dst.old }
{
    let last = src.len() - HALF_WORD;
    copy_half(&mut dst[last..], &src[last..]);
    copy_half(dst, src);
}

// One byte after the other.
fn copy_bytes(dst: &mut [u8], src: &[u8])
    requires { length src.now ≤ length dst.old }
    ensures { dst.new ≡ src.now ++ drop (length src.now) dst.old }
{
    for i in 0..src.len() {
        dst[i] = src[i];
    }
}

// Copies src over the front of dst.
pub fn copy_front(dst: &mut [u8], src: &[u8])
    requires { length src.now ≤ length dst.old }
    ensures { dst.new ≡ src.now ++ drop (length src.now) dst.old }
{
    if WORD <= src.len() {
        copy_words(dst, src);
        return;
    }
    if HALF_WORD <= src.len() {
        copy_halves(dst, src);
        return;
    }
    copy_bytes(dst, src);
}

// Every byte becomes zero.
pub fn clear(s: &mut [u8])
    ensures { s.new ≡ replicate (length s.old) 0 }
{
    s.fill(0);
}
