// A new content for one line of a set in its buffer, with the line's length and the sum brought up to date.
// Assumes of each call that the old content lies in the bytes that count and that the changed set has room: only other crates here call it, and they prove that. Each contract
// says what every byte of the buffer is afterwards.
#![tactic(auto)]

ghost use Rattle.std.specs.Prelude.{◌≡◌, ◌+◌, ◌-◌, ◌≤◌, length};
ghost use Rattle.meaning.specs.Lines.{line_lead};
ghost use Rattle.meaning.specs.Lists.{sum_digits, sum_place};
ghost use Rattle.correct_put.specs.Middle.{replaced, new_total, recontented};

use meaning::{LENGTH_DIGITS, LINE_FRAME, LINE_LEAD};

// Replaces the `old` bytes at an offset by others: the bytes after them move inside the buffer, and "every byte past the new used length becomes zero".
pub fn replace_middle(buffer: &mut [u8], at: usize, old: usize, new: &[u8], used: usize)
    requires within { (at + old ≤ used) × (used ≤ length buffer.old) }
    requires room { at + length new.now + (used - (at + old)) ≤ length buffer.old }
    ensures { buffer.new ≡ replaced at old new.now used buffer.old }
{
    let tail = used - (at + old);
    let end = at + new.len() + tail;
    byte_move::move_within(&mut buffer[at..], old, new.len(), tail);
    byte_put::copy_front(&mut buffer[at..], new);
    byte_put::clear(&mut buffer[end..]);
}

// "The new content is written into the middle of the buffer, the lines after it move, its length and 8100 are brought up to date": the line stands at an offset,
// its content has `old` bytes, and `total` bytes count then.
pub fn put_content(
    buffer: &mut [u8],
    used: usize,
    place: usize,
    old: usize,
    content: &[u8],
    total: usize,
)
    requires within { (place + line_lead + old ≤ used) × (used ≤ length buffer.old) }
    requires total_room { (total ≡ new_total old content.now used) × (total ≤ length buffer.old) × (sum_place + sum_digits ≤ length buffer.old) }
    ensures { buffer.new ≡ recontented place old content.now used buffer.old }
{
    replace_middle(buffer, place + LINE_LEAD, old, content, used);
    byte_put::put_digits(buffer, place, LENGTH_DIGITS, content.len() + LINE_FRAME);
    byte_put::put_digits(buffer, meaning::SUM_PLACE, meaning::SUM_DIGITS, total);
}
