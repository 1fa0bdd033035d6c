// The head of an entry at an offset of a field list or a sheet: "content length in two bytes, label in two bytes .., both little-endian, then the content".
// `entry_at` assumes nothing of the bytes or the offset: its contract cites the walk of specs/, and proofs/HeadLaws says what it means. `told_label` and `told_length` assume that the head is there.
#![tactic(auto)]

ghost use Rattle.std.specs.Prelude.{◌≡◌, ◌+◌, ◌≤◌, length};
ghost use Rattle.meaning.specs.Entries.{entry_lead, two_bytes_at};
ghost use Rattle.entry_read.specs.Head.{entry_at};

use meaning::{ENTRY_LEAD, NUMBER_BYTES};

// What the head of an entry says that is all there: its label (a label, in a sheet a line number), and the length of its content.
#[derive(Drop)]
pub struct Head {
    pub label: usize,
    pub length: usize,
}

// The number that the two bytes at an offset write, little-endian.
fn two_bytes(s: &[u8], at: usize) -> usize
    requires { at + 2 ≤ length s.now }
    ensures { result ≡ two_bytes_at s.now at }
{
    u16::from_le_bytes([s[at], s[at + 1]]) as usize
}

// The head of the entry at an offset; none if its head or its content runs past the input.
pub fn entry_at(s: &[u8], at: usize) -> Option<Head>
    ensures { result ≡ entry_at s.now at }
{
    if s.len() < at {
        return None;
    }
    if s.len() - at < ENTRY_LEAD {
        return None;
    }
    let length = two_bytes(s, at);
    if s.len() - at - ENTRY_LEAD < length {
        return None;
    }
    let label = two_bytes(s, at + NUMBER_BYTES);
    Some(Head { label, length })
}

// The label of an entry that is known to be whole.
pub fn told_label(s: &[u8], at: usize) -> usize
    requires { at + entry_lead ≤ length s.now }
    ensures { result ≡ two_bytes_at s.now (at + 2) }
{
    two_bytes(s, at + NUMBER_BYTES)
}

// The length of its content.
pub fn told_length(s: &[u8], at: usize) -> usize
    requires { at + entry_lead ≤ length s.now }
    ensures { result ≡ two_bytes_at s.now at }
{
    two_bytes(s, at)
}
