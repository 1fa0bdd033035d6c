// The bytes of a block, put into a lent buffer: "sequence count, label B00, B01 or B02, up to 128 data bytes, CRC-16 as four hex digits, 0Dh".
// Assumes of each call that what it puts lies within the buffer, and the data within the set: only another crate here calls it, and proves that.
#![tactic(auto)]

ghost use Rattle.std.specs.Prelude.{◌≡◌, [], ◌∷◌, ◌++◌, ◌+◌, ◌≤◌, ◌<◌, length, take};
ghost use Rattle.meaning.specs.Digits.{digit_zero};
ghost use Rattle.meaning.specs.Refusals.{done};
ghost use Rattle.meaning.specs.Lines.{cr};
ghost use Rattle.meaning.specs.Answers.{bytes_left};
ghost use Rattle.meaning_cable.specs.Crc.{crc};
ghost use Rattle.meaning_cable.specs.Blocks.{max_data, max_count, label_digit, hex_digit, hex_digits, block_front};
ghost use Rattle.meaning_cable.specs.Receiving.{block_lead, block_tail, max_block};
ghost use Rattle.byte_put.specs.Places.{over};
ghost use Rattle.cable_data.specs.Carried.{place_after};
ghost use Rattle.cable_frame.specs.Framed.{framed};

use meaning::DIGIT_ZERO;
use meaning_cable::{BLOCK_LEAD, BLOCK_TAIL, BlockLabel};

// Each label starts with `B0`.
const LETTER_B: u8 = b'B';

// The CRC is of count, label and data, so from the first byte on (E3c).
const CRC_FROM: usize = 0;

// A hex digit has this many values. The first ten are digits.
const HEX: u16 = 16;

const HEX_TENS: u16 = 10;

// The first hex digit that is a letter: upper case.
const LETTER_A: u8 = b'A';

// The last digit of a label, as a byte.
fn label_byte(label: BlockLabel) -> u8
    ensures { result ≡ digit_zero + label_digit label }
{
    match label {
        BlockLabel::B00 => b'0',
        BlockLabel::B01 => b'1',
        BlockLabel::B02 => b'2',
    }
}

// Count and label at the front.
fn put_lead(count: usize, label: BlockLabel, out: &mut [u8])
    requires { (count ≤ max_count) × (block_lead ≤ length out.old) }
    ensures { out.new ≡ over 0 (block_front count (label_digit label) []) out.old }
{
    let lead = [
        DIGIT_ZERO + count as u8,
        LETTER_B,
        DIGIT_ZERO,
        label_byte(label),
    ];
    out[..BLOCK_LEAD].copy_from_slice(&lead);
}

// One hex digit.
fn hex_digit(d: u16) -> u8
    requires { d < 16 }
    ensures { result ≡ hex_digit d }
{
    if d < HEX_TENS {
        return DIGIT_ZERO + d as u8;
    }
    LETTER_A + (d - HEX_TENS) as u8
}

// After the first n bytes, which are count, label and data, their CRC, "as four hex digits", and 0Dh.
fn put_tail(n: usize, out: &mut [u8])
    requires { (block_lead ≤ n) × (n + block_tail ≤ length out.old) }
    ensures { out.new ≡ over n (hex_digits (crc (take n out.old)) ++ (cr ∷ [])) out.old }
{
    let crc = cable_crc::crc_of(&out[CRC_FROM..n]);
    let tail = [
        hex_digit(crc / (HEX * HEX * HEX) % HEX),
        hex_digit(crc / (HEX * HEX) % HEX),
        hex_digit(crc / HEX % HEX),
        hex_digit(crc % HEX),
        meaning::CR,
    ];
    out[n..n + BLOCK_TAIL].copy_from_slice(&tail);
}

// The block with the n bytes of data that stand from an offset of the set on, and zeros after it. Its length.
pub fn put_block(
    count: usize,
    label: BlockLabel,
    set: &[u8],
    from: usize,
    n: usize,
    out: &mut [u8],
) -> usize
    requires numbers { count ≤ max_count }
    requires room { (place_after set.now from n ≤ length set.now) × (n ≤ max_data) × (max_block ≤ length out.old) }
    ensures { (result ≡ length (framed count (label_digit label) set.now from n))
        × (out.new ≡ bytes_left (done (framed count (label_digit label) set.now from n)) out.old) }
{
    put_lead(count, label, out);
    cable_data::put_data(set, from, n, out, BLOCK_LEAD);
    put_tail(BLOCK_LEAD + n, out);
    let size = BLOCK_LEAD + n + BLOCK_TAIL;
    byte_put::clear(&mut out[size..]);
    size
}
