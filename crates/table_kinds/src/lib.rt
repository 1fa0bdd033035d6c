// A test for each content kind that is no float, date or time, and whether a content fits a row of the field table.
// No function here asks anything of its caller; each says in its contract which definition of the meaning it equals.
#![tactic(auto)]

ghost use Rattle.std.specs.Prelude.{◌≡◌};
ghost use Rattle.meaning.specs.Kinds.{is_num, is_rule112, is_rule116, is_charset, is_version, same_bytes, is0210, of_kind};
ghost use Rattle.meaning.specs.FieldTable.{fits_label};
ghost use Rattle.table_kinds.specs.Fitting.{length_fits};

use meaning::{FieldRow, Kind};

// "num: digits only."
#[tactic(auto, unfolding(meaning::specs::Kinds::is_num))]
pub fn is_num(c: &[u8]) -> bool
    ensures { result ≡ is_num c.now }
{
    byte_digits::all_digits(c, 0)
}

// "Rule 112 (3110): 1 or 2."
#[tactic(auto, unfolding(meaning::specs::Kinds::is_rule112, meaning::specs::Kinds::first_is_in, meaning::specs::Field::elem))]
pub fn is_rule112(c: &[u8]) -> bool
    ensures { result ≡ is_rule112 c.now }
{
    matches!(c.first(), Some(b'1' | b'2'))
}

// "Rule 116 (3108): 1, 3 or 5."
#[tactic(auto, unfolding(meaning::specs::Kinds::is_rule116, meaning::specs::Kinds::first_is_in, meaning::specs::Field::elem))]
pub fn is_rule116(c: &[u8]) -> bool
    ensures { result ≡ is_rule116 c.now }
{
    matches!(c.first(), Some(b'1' | b'3' | b'5'))
}

// "9206: 1, 2 or 3."
#[tactic(auto, unfolding(meaning::specs::Kinds::is_charset, meaning::specs::Kinds::first_is_in, meaning::specs::Field::elem))]
pub fn is_charset(c: &[u8]) -> bool
    ensures { result ≡ is_charset c.now }
{
    matches!(c.first(), Some(b'1' | b'2' | b'3'))
}

// "9218: two digits, point, two digits"
#[tactic(auto, unfolding(meaning::specs::Kinds::is_version))]
pub fn is_version(c: &[u8]) -> bool
    ensures { result ≡ is_version c.now }
{
    byte_digits::two_at(c, 0) <= 99
        && byte_digits::byte_at(c, 2) == byte_digits::POINT
        && byte_digits::two_at(c, 3) <= 99
}

// The two slices hold the same bytes. Not by `==`, which takes 17 instructions more for the five bytes of 02.10: judging a small set then misses its bound.
fn same_bytes(c: &[u8], d: &[u8]) -> bool
    ensures { result ≡ same_bytes c.now d.now }
{
    if c.len() != d.len() {
        return false;
    }
    for i in 0..c.len() {
        if c[i] != d[i] {
            return false;
        }
    }
    true
}

// "only `02.10` is read"
#[tactic(auto, unfolding(meaning::specs::Kinds::is0210))]
pub fn is_0210(c: &[u8]) -> bool
    ensures { result ≡ is0210 c.now }
{
    same_bytes(c, b"02.10")
}

// The test of a kind.
#[tactic(auto, unfolding(meaning::specs::Kinds::of_kind, meaning::specs::Kinds::is_alnum))]
pub fn of_kind(kind: Kind, c: &[u8]) -> bool
    ensures { result ≡ of_kind kind c.now }
{
    match kind {
        Kind::Alnum => true,
        Kind::Num => is_num(c),
        Kind::Float => table_floats::is_float(c),
        Kind::Rule020 => table_dates::is_rule020(c),
        Kind::Rule008 => table_dates::is_rule008(c),
        Kind::Rule090 => table_dates::is_rule090(c),
        Kind::Rule112 => is_rule112(c),
        Kind::Rule116 => is_rule116(c),
        Kind::Charset => is_charset(c),
        Kind::Version => is_version(c),
    }
}

// A content of this length has the length that a row of the field table asks.
#[tactic(auto, unfolding(crate::specs::Fitting::length_fits))]
pub fn has_length(row: FieldRow, length: usize) -> bool
    ensures { result ≡ length_fits row length }
{
    row.least <= length && length <= row.most
}

// The content has the length and passes the test that the field table asks of the label.
pub fn fits_label(label: usize, content: &[u8]) -> bool
    ensures { result ≡ fits_label label content.now }
{
    let row = table_fields::field_row(label);
    if !has_length(row, content.len()) {
        return false;
    }
    match row.kind {
        // "alnum: any content bytes."
        Kind::Alnum => true,
        kind => of_kind(kind, content),
    }
}
