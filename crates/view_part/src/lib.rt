// The part that a view shows: "the part of the sheet if the line has an entry there, else the part of the set", and its bytes.
// Assumes nothing of the bytes; `shown_bytes`, which only other crates here call, assumes that the part lies within its slice.
#![tactic(auto)]

ghost use Rattle.std.specs.Prelude.{◌≡◌, Ok};
ghost use Rattle.meaning.specs.Views.{shown_bytes};
ghost use Rattle.view_part.specs.Parts.{later, Within};

use meaning::{Refusal, Shown};

// "The last for a line counts": the offset of an entry if it is for the line asked for, else that of the last one before it.
pub fn later_entry(last: usize, at: usize, named: usize, line: usize) -> usize
    ensures { result ≡ later last at named line }
{
    if named == line {
        return at;
    }
    last
}

// The part itself, of the slice that holds it.
fn part_bytes<'a>(set: &'a [u8], sheet: &'a [u8], shown: Shown) -> &'a [u8]
    requires { Within set.now sheet.now (Ok shown) }
    ensures { result.now ≡ shown_bytes set.now sheet.now (Ok shown) }
{
    match shown {
        Shown::Sheet(part) => {
            let start = part.place;
            let end = start + part.length;
            &sheet[start..end]
        }
        Shown::Set(part) => {
            let start = part.place;
            let end = start + part.length;
            &set[start..end]
        }
    }
}

// What a view shows; "a refusal comes with an empty part of the set".
pub fn shown_bytes<'a>(set: &'a [u8], sheet: &'a [u8], shown: Result<Shown, Refusal>) -> &'a [u8]
    requires { Within set.now sheet.now shown }
    ensures { result.now ≡ shown_bytes set.now sheet.now shown }
{
    match shown {
        Ok(part) => part_bytes(set, sheet, part),
        Err(_) => &set[0..0],
    }
}
