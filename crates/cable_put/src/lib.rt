// The bytes that the data of a block stand for, put into a lent buffer: 0Dh 0Ah for each 1Ch, and once more after a B02.
// Assumes of each call that there are at most 128 data bytes and that there is room: only another crate here calls it, and proves that. The contract says every byte of the buffer
// afterwards.
#![tactic(auto)]

ghost use Rattle.std.specs.Prelude.{◌≡◌, ◌==◌, [], ◌∷◌, ◌+◌, ◌≤◌, length, count_by};
ghost use Rattle.meaning.specs.Lines.{cr, lf, line_end};
ghost use Rattle.byte_put.specs.Places.{over};
ghost use Rattle.meaning_cable.specs.Stream.{separator, restore_then, restored};
ghost use Rattle.meaning_cable.specs.Blocks.{max_data};
ghost use Rattle.meaning_cable.specs.Receiving.{put_by, written};

use meaning::LINE_END;

// The last digit of the label B02. A label is any number here, and each but this one puts the data alone.
const B02: usize = 2;

// ---- how many bytes

// How many of the data bytes stand between two lines.
fn separators(bytes: &[u8]) -> usize
    ensures { result ≡ count_by (λ b. b == separator) bytes.now }
{
    bytes
        .iter()
        .filter(|b| **b == meaning_cable::SEPARATOR)
        .count()
}

// How many bytes the data stand for: each separator for one more.
fn restored_size(bytes: &[u8]) -> usize
    requires { length bytes.now ≤ max_data }
    ensures { (result ≡ length (restored bytes.now)) × (result ≤ max_data + max_data) }
{
    bytes.len() + separators(bytes) * (LINE_END - 1)
}

// How many bytes a block with this label and these data puts into the buffer.
pub fn put_size(label: usize, bytes: &[u8]) -> usize
    requires { length bytes.now ≤ max_data }
    ensures { result ≡ length (put_by label bytes.now) }
{
    let size = restored_size(bytes);
    if label == B02 {
        return size + LINE_END;
    }
    size
}

// ---- the bytes themselves

// The end of a line at an offset.
fn put_end(out: &mut [u8], at: usize)
    requires { at + line_end ≤ length out.old }
    ensures { out.new ≡ over at (cr ∷ lf ∷ []) out.old }
{
    out[at] = meaning::CR;
    out[at + 1] = meaning::LF;
}

// One byte of the data at an offset: "The receiver puts 0Dh 0Ah back for each 1Ch". The offset after it.
fn put_byte(b: u8, out: &mut [u8], to: usize) -> usize
    requires { to + length (restore_then b []) ≤ length out.old }
    ensures { (result ≡ to + length (restore_then b [])) × (out.new ≡ over to (restore_then b []) out.old) }
{
    if b == meaning_cable::SEPARATOR {
        put_end(out, to);
        return to + LINE_END;
    }
    out[to] = b;
    to + 1
}

// The data at an offset, byte after byte. The offset after them.
fn put_restored(bytes: &[u8], out: &mut [u8], at: usize) -> usize
    requires { at + length (restored bytes.now) ≤ length out.old }
    ensures { (result ≡ at + length (restored bytes.now)) × (out.new ≡ over at (restored bytes.now) out.old) }
{
    let mut to = at;
    for b in bytes {
        to = put_byte(*b, out, to);
    }
    to
}

// The data of a block with this label, and 0Dh 0Ah "once more after the data of a B02". The offset after them.
fn put_by(label: usize, bytes: &[u8], out: &mut [u8], at: usize) -> usize
    requires { at + length (put_by label bytes.now) ≤ length out.old }
    ensures { (result ≡ at + length (put_by label bytes.now)) × (out.new ≡ over at (put_by label bytes.now) out.old) }
{
    let end = put_restored(bytes, out, at);
    if label != B02 {
        return end;
    }
    put_end(out, end);
    end + LINE_END
}

// The same, and zeros after it: "after each block that is taken".
pub fn put_block(label: usize, bytes: &[u8], out: &mut [u8], at: usize)
    requires { at + length (put_by label bytes.now) ≤ length out.old }
    ensures { out.new ≡ written out.old at (put_by label bytes.now) }
{
    let used = put_by(label, bytes, out, at);
    byte_put::clear(&mut out[used..]);
}
