// Whether a line of an accepted set may take a new content: "19, 20, 6, 14", then 24, for a correction and for each entry of a sheet.
// Assumes nothing of the bytes: each contract cites a walk of specs/, and proofs/OfferLaws and TermsLaws say what the walks of an accepted set mean.
#![tactic(auto)]

ghost use Rattle.std.specs.Prelude.{◌≡◌, true, Ok};
ghost use Rattle.meaning.specs.Reading.{judge};
ghost use Rattle.meaning.specs.Corrections.{fixed};
ghost use Rattle.correct_offer.specs.Offered.{no_line, line_after, asks_seven, terms_of, number_by, refusal_by, refusal_by_number, objected_high, objected, offered, beyond, answered};

use meaning::{Refusal, Shape};

// A set that was accepted, and its shape.
#[derive(Clone, Copy)]
pub struct AcceptedSet<'a> {
    pub bytes: &'a [u8],
    pub shape: Shape,
    ghost accepted: { judge bytes.now ≡ Ok shape },
}

// A line of a set: its label, the offset of its first byte, and its whole length.
#[derive(Clone, Copy)]
pub struct OneLine {
    pub label: usize,
    pub at: usize,
    pub size: usize,
}

// Why a new content is declined, and the line that would have taken it; for 19 none, after all lines.
#[derive(Clone, Copy)]
pub struct Declined {
    pub refusal: Refusal,
    pub line: OneLine,
}

impl From<Declined> for Refusal {
    ghost from_gives = { λ declined refusal. refusal ≡ declined.refusal };

    fn from(declined: Declined) -> Self {
        declined.refusal
    }
}

// What an accepted set asks of every new content: how many bytes and lines the set has, and whether the content may have no byte over 7Fh.
#[derive(Clone, Copy)]
pub struct Terms {
    pub length: usize,
    pub lines: usize,
    pub seven: bool,
}

// What speaks against a new content for a line, whichever line it is.
#[derive(Clone, Copy, PartialEq, Eq)]
pub enum Objection {
    // 20: the line keeps its content.
    FixedLine,
    // 6: a byte of the content is under 20h.
    BadByte,
    // 14: the label takes no such content.
    BadContent,
    // 24: a byte of the content is over 7Fh, in a set that asks for seven bits.
    HighByte,
}

impl Objection {
    // Its number.
    fn number(self) -> usize
        ensures { result ≡ number_by self }
    {
        match self {
            Objection::FixedLine => Refusal::FIXED_LINE,
            Objection::BadByte => Refusal::BAD_BYTE,
            Objection::BadContent => Refusal::BAD_CONTENT,
            Objection::HighByte => Refusal::HIGH_BYTE,
        }
    }

    // The refusal of a content for a line with this label: 6 and 24 tell which byte of the content, the others tell `at`, and the label.
    pub fn refusal(self, label: usize, content: &[u8], at: usize) -> Refusal
        ensures { result ≡ refusal_by self label content.now at 0 }
    {
        refusal_by_number(self.number(), label, content, at)
    }
}

// The same by its number, whichever number that is; 0 is no refusal.
#[tactic(auto, unfolding(crate::specs::Offered::refusal_by_number))]
pub fn refusal_by_number(no: usize, label: usize, content: &[u8], at: usize) -> Refusal
    ensures { result ≡ refusal_by_number no label content.now at 0 }
{
    match no {
        0 => Refusal::none(),
        Refusal::BAD_BYTE => {
            let low = byte_low::find_low(content, 0, content.len());
            Refusal::at(Refusal::BAD_BYTE, low)
        }
        Refusal::HIGH_BYTE => {
            let high = byte_high::first_high(content, 0, content.len());
            Refusal::at(Refusal::HIGH_BYTE, high)
        }
        _ => Refusal {
            no,
            place: at,
            label,
        },
    }
}

// No line.
fn no_line() -> OneLine
    ensures { result ≡ no_line }
{
    OneLine {
        label: 0,
        at: 0,
        size: 0,
    }
}

// The line after this many lines of a set, by the lengths that these give. If one of them gives no length, there is no line.
pub fn line_after(set: &[u8], before: usize) -> OneLine
    ensures { result ≡ line_after set.now before }
{
    let mut at = 0;
    for _ in 0..before {
        let length = line_read::told_length(set, at);
        if length == 0 {
            return no_line();
        }
        at += length + meaning::LINE_FRAME;
    }
    let label = line_read::told_label(set, at);
    let size = line_read::told_length(set, at) + meaning::LINE_FRAME;
    OneLine { label, at, size }
}

// Seven bits have to be asked for: a byte of what is offered is over 7Fh, and the set holds 9206 with content 1.
fn asks_seven(set: &[u8], offered: &[u8]) -> bool
    ensures { result ≡ asks_seven set.now offered.now }
{
    if line_seven::high_for(set, offered) < offered.len() {
        return true;
    }
    false
}

// The same of a whole sheet, asked once a call. Most sheets have no byte over 7Fh: that is found first, and no byte is looked for then.
fn sheet_asks_seven(set: &[u8], sheet: &[u8]) -> bool
    ensures { result ≡ asks_seven set.now sheet.now }
{
    if byte_high::all_plain(sheet) {
        return false;
    }
    asks_seven(set, sheet)
}

// The terms of an accepted set of this shape for the entries of a sheet.
pub fn terms_of(set: &[u8], shape: Shape, sheet: &[u8]) -> Terms
    ensures { result ≡ terms_of set.now shape sheet.now }
{
    let seven = sheet_asks_seven(set, sheet);
    Terms {
        length: shape.length,
        lines: shape.lines,
        seven,
    }
}

// 20, FixedLine: "line is 8000, 8100 or 9218", and "9206 joins the lines that can't be corrected".
fn is_fixed(label: usize) -> bool
    ensures { result ≡ fixed label }
{
    // Most lines that are corrected, those about the patient among them, have a lower label.
    if label < meaning::LABEL_8000 {
        return false;
    }
    matches!(
        label,
        meaning::LABEL_8000 | meaning::LABEL_8100 | meaning::LABEL_9206 | meaning::LABEL_9218
    )
}

// 24, HighByte, of a content that may have no byte over 7Fh.
fn judge_high(content: &[u8]) -> Option<Objection>
    ensures { result ≡ objected_high content.now true }
{
    if byte_high::first_high(content, 0, content.len()) < content.len() {
        return Some(Objection::HighByte);
    }
    None
}

// What speaks against a new content for a line with this label, of a correction or of an entry of a sheet: 20, 6, 14, and 24 if seven bits have to be asked for. Most contents are good:
// which byte is bad is looked for only if a refusal is made of it.
pub fn judge_content(label: usize, content: &[u8], seven: bool) -> Option<Objection>
    ensures { result ≡ objected label content.now seven }
{
    if is_fixed(label) {
        return Some(Objection::FixedLine);
    }
    if byte_low::first_low(content, 0, content.len()) < content.len() {
        return Some(Objection::BadByte);
    }
    // 14, BadContent: "empty included"
    if !table_kinds::fits_label(label, content) {
        return Some(Objection::BadContent);
    }
    // 24, HighByte: "for a correction or sheet entry after BadContent", so only if nothing else speaks against the content.
    if seven {
        return judge_high(content);
    }
    None
}

// 19, NoSuchLine: "line number 0 or beyond the set; place: set length".
fn no_such_line(length: usize) -> Declined
    ensures { result ≡ beyond length }
{
    Declined {
        refusal: Refusal::at(Refusal::NO_SUCH_LINE, length),
        line: OneLine {
            label: 0,
            at: length,
            size: 0,
        },
    }
}

// A correction, a new content for a line of an accepted set of this shape: 19, 20, 6, 14, 24, or the line that takes it.
pub fn judge_change(
    set: &[u8],
    shape: Shape,
    line: usize,
    content: &[u8],
) -> Result<OneLine, Declined>
    ensures { result ≡ answered (offered set.now (terms_of set.now shape content.now) line content.now) }
{
    if line < 1 {
        return Err(no_such_line(shape.length));
    }
    if shape.lines < line {
        return Err(no_such_line(shape.length));
    }
    let found = line_after(set, line - 1);
    let seven = asks_seven(set, content);
    match judge_content(found.label, content, seven) {
        Some(objection) => {
            let refusal = objection.refusal(found.label, content, found.at);
            Err(Declined {
                refusal,
                line: found,
            })
        }
        None => Ok(found),
    }
}
