// The form of a block, its CRC, and its parts: "25 for the form, 26".
// No public function asks anything of its caller: a `Block` can only be of good form.
#![tactic(auto)]

ghost use Rattle.std.specs.Prelude.{◌≡◌, true, false, [], ◌∷◌, ◌≤◌, length, eqb, IfSome, IfNone};
ghost use Rattle.meaning_cable.specs.Stream.{data_byte, all_data};
ghost use Rattle.meaning_cable.specs.Blocks.{b00, label_digit};
ghost use Rattle.meaning_cable.specs.Receiving.{min_block, count_of, label_of, data_of, is_hex, hex_value, all_hex, hex_from, head_ok, end_ok, form_ok, crc_ok};

use meaning::{DIGIT_NINE, DIGIT_ZERO};
use meaning_cable::{BLOCK_LEAD, BLOCK_TAIL, BlockLabel};

// The least length of a block: of data "there may be none".
const MIN_BLOCK: usize = BLOCK_LEAD + BLOCK_TAIL;

// The count stands first; the last digit of the label tells which it is.
const COUNT_PLACE: usize = 0;

const LABEL_PLACE: usize = 3;

// The first of the letters among the hex digits.
const LETTER_A: u8 = b'A';

// ---- bytes

// "data bytes 1Ch or 20h to FFh".
fn is_data(b: u8) -> bool
    ensures { result ≡ data_byte b }
{
    (b == meaning_cable::SEPARATOR) | (byte_low::LEAST_BYTE <= b)
}

// The loop has no way out between the bytes, so that many are tested at once.
fn all_data(bytes: &[u8]) -> bool
    ensures { result ≡ all_data bytes.now }
{
    bytes.iter().fold(true, |fit, b| fit & is_data(*b))
}

// "four upper-case hex digits": `0` to `9`, `A` to `F`.
fn is_hex(b: u8) -> bool
    ensures { result ≡ is_hex b }
{
    matches!(b, b'0'..=b'9' | b'A'..=b'F')
}

fn all_hex(digits: &[u8]) -> bool
    ensures { result ≡ all_hex digits.now }
{
    digits.iter().all(|b| is_hex(*b))
}

// What a hex digit stands for. A byte has no method for it, and that of `char` takes lower case too.
fn hex_value(b: u8) -> u16
    requires { is_hex b ≡ true }
    ensures { (result ≡ hex_value b) × (result ≤ 15) }
{
    if b <= DIGIT_NINE {
        return (b - DIGIT_ZERO) as u16;
    }
    10 + (b - LETTER_A) as u16
}

// The number that four hex digits write.
fn hex_number(a: u8, b: u8, c: u8, d: u8) -> u16
    requires { all_hex (a ∷ b ∷ c ∷ d ∷ []) ≡ true }
    ensures { result ≡ hex_from 0 (a ∷ b ∷ c ∷ d ∷ []) }
{
    ((hex_value(a) * 16 + hex_value(b)) * 16 + hex_value(c)) * 16 + hex_value(d)
}

// ---- the form

// "a digit; B00, B01 or B02".
fn head_ok(block: &[u8]) -> bool
    requires { min_block ≤ length block.now }
    ensures { result ≡ head_ok block.now }
{
    matches!(block, [b'0'..=b'9', b'B', b'0', b'0'..=b'2', ..])
}

// "four upper-case hex digits; 0Dh".
fn end_ok(block: &[u8]) -> bool
    requires { min_block ≤ length block.now }
    ensures { result ≡ end_ok block.now }
{
    let from = block.len() - BLOCK_TAIL;
    let last = block.len() - 1;
    if !all_hex(&block[from..last]) {
        return false;
    }
    block[last] == meaning::CR
}

// Not 25, BadBlock, "for the form": "9 to 137 bytes; a digit; B00, B01 or B02; data bytes 1Ch or 20h to FFh, there may be none; four upper-case hex digits;
// 0Dh".
pub fn form_ok(block: &[u8]) -> bool
    ensures { result ≡ form_ok block.now }
{
    if block.len() < MIN_BLOCK {
        return false;
    }
    if meaning_cable::BLOCK < block.len() {
        return false;
    }
    if !head_ok(block) {
        return false;
    }
    let end = block.len() - BLOCK_TAIL;
    if !all_data(&block[BLOCK_LEAD..end]) {
        return false;
    }
    end_ok(block)
}

// ---- a block of good form, and its parts

// The bytes of a block of good form.
#[derive(Clone, Copy)]
pub struct Block<'a> {
    pub bytes: &'a [u8],
    ghost good_form: { form_ok bytes.now ≡ true },
}

impl<'a> Block<'a> {
    // None is 25, BadBlock, "for the form".
    pub fn read(bytes: &'a [u8]) -> Option<Block<'a>>
        ensures some { IfSome result (λ block. block.bytes.now ≡ bytes.now) }
        ensures none { IfNone result (form_ok bytes.now ≡ false) }
    {
        if !form_ok(bytes) {
            return None;
        }
        Some(Block { bytes })
    }

    // Not 26, BadCrc: the four digits write the CRC of count, label and data.
    pub fn crc_ok(&self) -> bool
        ensures { result ≡ crc_ok self.now.bytes.now }
    {
        let block = self.bytes;
        let end = block.len() - BLOCK_TAIL;
        let written = hex_number(block[end], block[end + 1], block[end + 2], block[end + 3]);
        written == cable_crc::crc_of(&block[COUNT_PLACE..end])
    }

    // The sequence count.
    pub fn count(&self) -> usize
        ensures { result ≡ count_of self.now.bytes.now }
    {
        usize::from(self.bytes[COUNT_PLACE] - DIGIT_ZERO)
    }

    pub fn label(&self) -> BlockLabel
        ensures { label_digit result ≡ label_of self.now.bytes.now }
    {
        match self.bytes[LABEL_PLACE] {
            b'0' => BlockLabel::B00,
            b'2' => BlockLabel::B02,
            _ => BlockLabel::B01,
        }
    }

    // Whether it is the first block of a set.
    pub fn starts_set(&self) -> bool
        ensures { result ≡ eqb (label_of self.now.bytes.now) b00 }
    {
        self.label() == BlockLabel::B00
    }

    // The data bytes, "there may be none".
    pub fn data_bytes(&self) -> &'a [u8]
        ensures { result.now ≡ data_of self.now.bytes.now }
    {
        let end = self.bytes.len() - BLOCK_TAIL;
        &self.bytes[BLOCK_LEAD..end]
    }
}
