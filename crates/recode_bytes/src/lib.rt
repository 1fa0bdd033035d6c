// The bytes of a set under a code table: which is the first without a character in the wanted code page, for 27 of the paper's replies, and every byte becoming its entry.
// Most bytes are below 80h, have a character and stay as they are: both functions begin after those at the front, and pass over blocks that have no other byte.
// Assumes of each call that the table has an entry for each byte and leaves such bytes as they are, and that `plain` of them are at the front: only other crates here call it, and they
// prove that. Each contract cites a walk of specs/.
#![tactic(auto)]

ghost use Rattle.std.specs.Prelude.{◌≡◌, ◌+◌, ◌≤◌, ◌<◌, length};
ghost use Rattle.byte_high.specs.High.{plain_front};
ghost use Rattle.recode_bytes.specs.Mapped.{CodeTable, has_character, first_without, mapped, mapped_at};

use byte_low::ByteTest;
use recode_table::NO_BYTE;

// After blocks that were passed over this many bytes are taken one by one; else, and so at the first byte over 7Fh, more: others may follow.
const PART: usize = 8;

const LONG_PART: usize = 8 * PART;

// A byte is one of this many numbers.
const BYTE: u16 = meaning::BYTE_VALUES as u16;

// How many bytes are taken one by one, if blocks were passed over from an offset i to an offset `from`: more if there were none.
fn part_size(i: usize, from: usize) -> usize
    ensures { 1 ≤ result }
{
    if i < from {
        return PART;
    }
    LONG_PART
}

// Where these bytes end.
fn part_end(length: usize, i: usize, from: usize) -> usize
    requires { from ≤ length }
    ensures { (from ≤ result) × (result ≤ length) × (from < length → from < result) }
{
    let part = part_size(i, from);
    if length - from < part {
        return length;
    }
    from + part
}

// ---- 27

// A byte that has a character in the wanted code page passes.
#[derive(Clone, Copy)]
struct InCodePage<'a> {
    table: &'a [u16; 256],
    ghost is_code_table: { CodeTable table.now },
}

impl<'a> ByteTest for InCodePage<'a> {
    ghost passes = { λ test. has_character test.table.now };

    fn passes(self, b: u8) -> bool {
        self.table[b as usize] != NO_BYTE
    }
}

// The offset of the first byte without a character in the wanted code page, or how many bytes these are.
pub fn first_without(s: &[u8], plain: usize, table: &[u16; 256]) -> usize
    requires { (plain ≡ plain_front s.now) × CodeTable table.now }
    ensures { result ≡ first_without table.now s.now 0 (length s.now) }
{
    // A part starts where the one before it ends, so no range has the offsets.
    let mut i = plain;
    while i < s.len() {
        let from = byte_high::pass_plain(s, i);
        let end = part_end(s.len(), i, from);
        let found = byte_low::seek(InCodePage { table }, s, from, end - from);
        if found < end {
            return found;
        }
        i = end;
    }
    i
}

// ---- every byte becomes its entry

// The k bytes at an offset.
fn map_each(s: &mut [u8], at: usize, k: usize, table: &[u16; 256])
    requires { at + k ≤ length s.old }
    ensures { s.new ≡ mapped_at table.now at k s.old }
{
    for b in &mut s[at..at + k] {
        *b = (table[*b as usize] % BYTE) as u8;
    }
}

// Every byte becomes its entry.
pub fn map_bytes(s: &mut [u8], plain: usize, table: &[u16; 256])
    requires { (plain ≡ plain_front s.old) × CodeTable table.now }
    ensures { s.new ≡ mapped table.now s.old }
{
    // A part starts where the one before it ends, so no range has the offsets.
    let mut i = plain;
    while i < s.len() {
        let from = byte_high::pass_plain(s, i);
        let end = part_end(s.len(), i, from);
        map_each(s, from, end - from, table);
        i = end;
    }
}
