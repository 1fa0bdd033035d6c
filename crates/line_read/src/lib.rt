// One line of a set at an offset, and what a line says that was read before: 2 to 6 of the paper's replies.
// Assumes nothing of the bytes; `size_at` and `label_at`, which only other crates here call, assume that the digits of a line that was read stand at the offset. Each contract cites a
// walk of specs/, and proofs/LineMeaning and proofs/ToldLaws say what the walks mean.
#![tactic(auto)]

ghost use Rattle.std.specs.Prelude.{◌≡◌, true, ◌+◌, ◌-◌, ◌*◌, ◌^◌, ◌≤◌, ◌<◌, length, take, drop, leb, eqb, ◌&&◌, Err};
ghost use Rattle.meaning.specs.Digits.{digit, all_digits};
ghost use Rattle.meaning.specs.Refusals.{refusal};
ghost use Rattle.meaning.specs.Lines.{length_digits, label_digits, line_lead, min_line_bytes, cr, lf};
ghost use Rattle.line_read.specs.Number.{number_at};
ghost use Rattle.line_read.specs.Line.{labelled_line, sized_line, line_at, a_line};
ghost use Rattle.line_read.specs.Told.{bytes_from, three_bytes, three_zeros, four_bytes, four_zeros, told_length, told_label};

use meaning::{CR, LABEL_DIGITS, LENGTH_DIGITS, LF, LINE_END, LINE_FRAME, LINE_LEAD, Refusal};

// "Content has 1 byte or more, so lengths run 010 to 999."
const MIN_LINE_BYTES: usize = LINE_FRAME + 1;

// The bytes of a line 8100 with a sum of five digits.
pub const SUM_LINE: usize = LINE_FRAME + meaning::SUM_DIGITS;

// What the bytes `000` and `0000` come to, each byte times the value of its digit.
const THREE_ZEROS: usize = meaning::DIGIT_ZERO as usize * 111;

const FOUR_ZEROS: usize = meaning::DIGIT_ZERO as usize * 1111;

// This many digits write no number that is too large for a usize.
const MOST_DIGITS: usize = 9;

// A line that keeps 2 to 6: its label and its whole length.
#[derive(Drop)]
pub struct Line {
    pub label: usize,
    pub size: usize,
}

// The number that the k bytes at an offset write, for k up to nine: none if one of them is no digit, they are not all there, or they are too many.
pub fn number_at(s: &[u8], at: usize, k: usize) -> Option<usize>
    ensures { result ≡ number_at s.now at k }
{
    if MOST_DIGITS < k {
        return None;
    }
    let Some(rest) = s.get(at..) else {
        return None;
    };
    let Some(bytes) = rest.get(..k) else {
        return None;
    };
    let mut number: usize = 0;
    for b in bytes {
        if !b.is_ascii_digit() {
            return None;
        }
        number = number * 10 + usize::from(*b - meaning::DIGIT_ZERO);
    }
    Some(number)
}

// ---- one line, rule by rule

// A refusal of a line: "the label 0, unless said otherwise".
fn refused(no: usize, place: usize) -> Result<Line, Refusal>
    ensures { result ≡ Err (refusal no place 0) }
{
    Err(Refusal::at(no, place))
}

// Two bytes are the end of a line, asked at once.
fn line_ends(a: u8, b: u8) -> bool
    ensures { result ≡ eqb a cr && eqb b lf }
{
    u16::from_le_bytes([a, b]) == u16::from_le_bytes([CR, LF])
}

// The line at an offset whose length and label are read.
fn labelled_line(s: &[u8], at: usize, size: usize, label: usize) -> Result<Line, Refusal>
    requires { (min_line_bytes ≤ size) × (at + size ≤ length s.now) }
    ensures { result ≡ labelled_line s.now at size label }
{
    // 6, BadByte: "content byte under 20h; place is that byte"
    let content = at + LINE_LEAD;
    let k = size - LINE_FRAME;
    let low = byte_low::seek_low(s, content, k);
    if low < content + k {
        return refused(Refusal::BAD_BYTE, low);
    }
    Ok(Line { label, size })
}

// The line at an offset whose length is read.
fn sized_line(s: &[u8], at: usize, size: usize) -> Result<Line, Refusal>
    requires { at ≤ length s.now }
    ensures { result ≡ sized_line s.now at size }
{
    // 2, BadLength: "or below 010"
    if size < MIN_LINE_BYTES {
        return refused(Refusal::BAD_LENGTH, at);
    }
    // 3, CutLine: "the line runs past the input"
    if s.len() - at < size {
        return refused(Refusal::CUT_LINE, at);
    }
    // 4, BadEnd: "last two bytes are not 0Dh 0Ah"
    if !line_ends(s[at + (size - LINE_END)], s[at + (size - 1)]) {
        return refused(Refusal::BAD_END, at);
    }
    // 5, BadLabel: "label not four digits"
    match number_at(s, at + LENGTH_DIGITS, LABEL_DIGITS) {
        Some(label) => labelled_line(s, at, size, label),
        None => refused(Refusal::BAD_LABEL, at),
    }
}

// The line at an offset: "each by .. 2, 3, 4, 5, 6".
#[inline(always)]
pub fn line_at(s: &[u8], at: usize) -> Result<Line, Refusal>
    ensures { result ≡ line_at s.now at }
{
    // 2, BadLength: "under three bytes remain, not digits"
    match number_at(s, at, LENGTH_DIGITS) {
        Some(size) => sized_line(s, at, size),
        None => refused(Refusal::BAD_LENGTH, at),
    }
}

// ---- what a line says that was read before: its bytes are taken as digits, and nothing is tested

// N bytes at an offset, each times the value of its digit.
fn digits_at<const N: usize>(s: &[u8], at: usize) -> usize
    requires { (N ≤ label_digits) × (at + N ≤ length s.now) }
    ensures { (result ≡ bytes_from 0 (take N (drop at s.now))) × (result * 9 < 256 * 10 ^ N) }
{
    let mut number: usize = 0;
    for b in &s[at..at + N] {
        number = number * 10 + usize::from(*b);
    }
    number
}

// The bytes before the content stand at an offset. Two tests, since no difference may be under 0.
pub fn has_lead(s: &[u8], at: usize) -> bool
    ensures { result ≡ leb (at + line_lead) (length s.now) }
{
    LINE_LEAD <= s.len() && at <= s.len() - LINE_LEAD
}

// The length of the content that the line at an offset says in its first three bytes; 0 if it says none.
pub fn told_length(s: &[u8], at: usize) -> usize
    ensures { (result ≡ told_length s.now at) × (result < 65536) }
{
    if !has_lead(s, at) {
        return 0;
    }
    let n = digits_at::<LENGTH_DIGITS>(s, at);
    // A test of its own: a saturating subtraction takes an instruction more for each line.
    if n < THREE_ZEROS + LINE_FRAME {
        return 0;
    }
    n - (THREE_ZEROS + LINE_FRAME)
}

// The label that it says in the four bytes after these; 0 if it says none.
pub fn told_label(s: &[u8], at: usize) -> usize
    ensures { result ≡ told_label s.now at }
{
    if !has_lead(s, at) {
        return 0;
    }
    let n = digits_at::<LABEL_DIGITS>(s, at + LENGTH_DIGITS);
    if n < FOUR_ZEROS {
        return 0;
    }
    n - FOUR_ZEROS
}

// ---- a line that was read before: its whole length and its label

// The whole length that three digits at an offset say. It is made in 32 bits: else the compiler makes it anew for each test of it.
pub fn size_at(s: &[u8], at: usize) -> usize
    requires { (at + length_digits ≤ length s.now) × (three_zeros ≤ three_bytes s.now at) }
    ensures { (result ≡ three_bytes s.now at - three_zeros) × (result < 65536) }
{
    let bytes = digits_at::<LENGTH_DIGITS>(s, at) as u32;
    (bytes - THREE_ZEROS as u32) as usize
}

// The label that the four digits after these say.
pub fn label_at(s: &[u8], at: usize) -> usize
    requires { (at + line_lead ≤ length s.now) × (four_zeros ≤ four_bytes s.now (at + length_digits)) }
    ensures { result ≡ four_bytes s.now (at + length_digits) - four_zeros }
{
    digits_at::<LABEL_DIGITS>(s, at + LENGTH_DIGITS) - FOUR_ZEROS
}

// ---- one line of many

// The bytes before the content of the line at an offset are digits, and a line ends before them. All eight are asked by two bounds, and the loop has no way out between them:
// so they are tested at once. The lower bound of the first is one too low, since of two bounds that are equal the compiler makes one test.
fn usual_lead(s: &[u8], at: usize) -> bool
    requires { (1 ≤ at) × (at + line_lead ≤ length s.now) }
    ensures { result ≡ true → all_digits (take line_lead (drop at s.now)) ≡ true }
{
    let before = s[at - 1];
    let mut fit = (LF - 1 <= before) & (before <= LF);
    for b in &s[at..at + LINE_LEAD] {
        fit &= (meaning::DIGIT_ZERO <= *b) & (*b <= meaning::DIGIT_NINE);
    }
    fit
}

// The line at an offset keeps 2 to 6: it starts with digits, these say where it ends, and then the rest is tested. After `false` nothing is said of the line. One loop alone
// calls it, so that it becomes a part of that loop.
pub fn sound_at(s: &[u8], at: usize) -> bool
    ensures { result ≡ true → line_at s.now at ≡ a_line (four_bytes s.now (at + length_digits) - four_zeros) (three_bytes s.now at - three_zeros) }
{
    if at < 1 {
        return false;
    }
    if s.len() < MIN_LINE_BYTES {
        return false;
    }
    if s.len() - MIN_LINE_BYTES < at {
        return false;
    }
    if usual_lead(s, at) {
        let size = size_at(s, at);
        if size < MIN_LINE_BYTES {
            return false;
        }
        if s.len() - at < size {
            return false;
        }
        let end = at + (size - LINE_END);
        if byte_low::clean_content(s, at + LINE_LEAD, end) {
            return line_ends(s[end], s[end + 1]);
        }
    }
    false
}
