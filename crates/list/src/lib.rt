// `list`: the field list of the set at the front of some bytes, put into a lent buffer.
// It has no `requires`. The other functions are its parts, with walks of specs/ in their contracts; proofs/ListLaws says what the walks mean.
#![tactic(auto)]

ghost use Rattle.std.specs.Prelude.{◌≡◌, ◌+◌, ◌≤◌, ◌<◌, length, drop, Ok};
ghost use Rattle.meaning.specs.Field.{field};
ghost use Rattle.meaning.specs.Entries.{two_bytes, entry_lead, entry_then};
ghost use Rattle.meaning.specs.Reading as Reading;
ghost use Rattle.meaning.specs.Answers.{list_call};
ghost use Rattle.byte_put.specs.Places.{over};
ghost use Rattle.list.specs.Listing.{AllRead, line_entry, listed_from};

use meaning::{Refusal, Shape};

// This many lines stand before that of 8100.
const BEFORE_SUM: usize = 1;

// A number in two bytes, little-endian.
fn put_two(n: usize, out: &mut [u8])
    requires { (n < 65536) × (2 ≤ length out.old) }
    ensures { out.new ≡ two_bytes n (drop 2 out.old) }
{
    out[..meaning::NUMBER_BYTES].copy_from_slice(&(n as u16).to_le_bytes());
}

// The entry of a field at the front of some bytes.
fn put_entry(label: usize, content: &[u8], out: &mut [u8])
    requires { (label < 65536) × (length content.now < 65536) × (length content.now + entry_lead ≤ length out.old) }
    ensures { out.new ≡ entry_then (field label content.now) (drop (length content.now + entry_lead) out.old) }
{
    put_two(content.len(), out);
    put_two(label, &mut out[meaning::NUMBER_BYTES..]);
    byte_put::copy_front(&mut out[meaning::ENTRY_LEAD..], content);
}

// The entry of the line that has k lines before it, at offset `to`, and the offset after it. "8100 has no entry."
fn put_listed(k: usize, label: usize, content: &[u8], out: &mut [u8], to: usize) -> usize
    requires { (label < 65536) × (length content.now < 65536) × (to + length (line_entry k label content.now) ≤ length out.old) }
    ensures { (result ≡ to + length (line_entry k label content.now)) × (out.new ≡ over to (line_entry k label content.now) out.old) }
{
    if k == BEFORE_SUM {
        return to;
    }
    put_entry(label, content, &mut out[to..]);
    to + (content.len() + meaning::ENTRY_LEAD)
}

// The entries of the first `lines` lines, entry after entry, nothing between. These lines are those of an accepted set.
fn put_entries(set: &[u8], lines: usize, out: &mut [u8])
    requires all_read { AllRead set.now 0 lines }
    requires room { length (listed_from set.now 0 0 lines) ≤ length out.old }
    ensures { out.new ≡ over 0 (listed_from set.now 0 0 lines) out.old }
{
    let mut at: usize = 0;
    let mut to: usize = 0;
    for k in 0..lines {
        let length = line_read::told_length(set, at);
        let label = line_read::told_label(set, at);
        let from = at + meaning::LINE_LEAD;
        to = put_listed(k, label, &set[from..from + length], out, to);
        at += length + meaning::LINE_FRAME;
    }
}

// The list of an accepted set: line 2 has no entry, and each other line loses its frame and gains an entry's lead.
fn list_accepted(set: &[u8], shape: Shape, out: &mut [u8]) -> Result<usize, Refusal>
    requires { Reading.judge set.now ≡ Ok shape }
    ensures { (result ≡ (list_call set.now out.old).answer) × (out.new ≡ (list_call set.now out.old).buffer) }
{
    let need = shape.length - meaning::SUM_LINE - (shape.lines - 1) * meaning::LINE_OVER_ENTRY;
    // 22, NoRoom: "output needs more than is lent; place: the need"
    if out.len() < need {
        return Err(Refusal::at(Refusal::NO_ROOM, need));
    }
    put_entries(set, shape.lines, out);
    byte_put::clear(&mut out[need..]);
    Ok(need)
}

// The set at the front of some bytes as a field list: "list refuse[s] as the set does, then by 22".
pub fn list(set: &[u8], out: &mut [u8]) -> Result<usize, Refusal>
    ensures { (result ≡ (list_call set.now out.old).answer) × (out.new ≡ (list_call set.now out.old).buffer) }
{
    let shape = judge::judge(set)?;
    list_accepted(set, shape, out)
}
