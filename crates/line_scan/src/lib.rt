// Where a set ends, and the scan of the lines from an offset on: 2 to 7 of the paper's replies.
// Assumes nothing of the bytes; `scan_from`, which only other crates here call, assumes that its offset lies within them and has at most 512 lines before it. Each contract cites a
// walk of specs/, and proofs/ScanMeaning says what the walks mean.
#![tactic(auto)]

ghost use Rattle.std.specs.Prelude.{◌≡◌, true, ◌+◌, ◌-◌, ◌≤◌, length};
ghost use Rattle.meaning.specs.Limits.{max_lines};
ghost use Rattle.meaning.specs.Lines.{label_digits};
ghost use Rattle.line_scan.specs.Scan.{reads8000, ends_at, scan_from, GoesOn};

use meaning::{Refusal, SetType};

// A set whose lines all keep their rules: its length in bytes, and its lines.
#[derive(Drop)]
pub struct Scan {
    pub length: usize,
    pub lines: usize,
}

// The four bytes at an offset read `8000`.
fn reads_8000(s: &[u8], i: usize) -> bool
    requires { i + label_digits ≤ length s.now }
    ensures { result ≡ reads8000 s.now i }
{
    // As one number: a comparison of slices takes more instructions for a label that begins with 8.
    u32::from_le_bytes([s[i], s[i + 1], s[i + 2], s[i + 3]]) == u32::from_le_bytes(*b"8000")
}

// The set ends before an offset: at the end of the input, or if "seven or more bytes remain and bytes four to seven read `8000`", whatever the three
// bytes before them are (B1).
pub fn ends_at(s: &[u8], at: usize) -> bool
    ensures { result ≡ ends_at s.now at }
{
    if s.len() <= at {
        return true;
    }
    if s.len() - at < meaning::LINE_LEAD {
        return false;
    }
    reads_8000(s, at + meaning::LENGTH_DIGITS)
}

// A line of this set that keeps 2 to 6, as most do, stands at an offset that has `before` lines before it.
fn goes_on(s: &[u8], at: usize, before: usize) -> bool
    ensures { result ≡ true → GoesOn s.now at before }
{
    if SetType::LINES <= before {
        return false;
    }
    if line_read::sound_at(s, at) {
        return !reads_8000(s, at + meaning::LENGTH_DIGITS);
    }
    false
}

// The lines of a set from a line start on that has `before` lines before it, one by one: at each the set's end is asked first, then 7, then 2 to 6 (B2).
fn scan_each(s: &[u8], start: usize, before: usize) -> Result<Scan, Refusal>
    requires { (start ≤ length s.now) × (before ≤ max_lines) }
    ensures { result ≡ scan_from s.now start before (max_lines - before) }
{
    let mut at = start;
    for lines in before..SetType::LINES {
        if ends_at(s, at) {
            return Ok(Scan { length: at, lines });
        }
        let line = line_read::line_at(s, at)?;
        at += line.size;
    }
    if ends_at(s, at) {
        return Ok(Scan {
            length: at,
            lines: SetType::LINES,
        });
    }
    // 7, TooManyLines: "a 513th line starts"
    Err(Refusal::at(Refusal::TOO_MANY_LINES, at))
}

// The same lines. Those without a fault are the rule, so they are passed over by a loop of their own that reads nothing else; where it stops, the lines are read one by one.
pub fn scan_from(s: &[u8], start: usize, before: usize) -> Result<Scan, Refusal>
    requires { (start ≤ length s.now) × (before ≤ max_lines) }
    ensures { result ≡ scan_from s.now start before (max_lines - before) }
{
    let mut at = start;
    let mut lines = before;
    while goes_on(s, at, lines) {
        at += line_read::size_at(s, at);
        lines += 1;
    }
    scan_each(s, at, lines)
}
