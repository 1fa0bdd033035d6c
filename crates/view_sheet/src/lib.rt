// A sheet of pending corrections: each of its entries judged, and what it shows for a line of an accepted set.
// Assumes nothing of the sheet. `shown_under`, which only other crates here call, assumes that the set is accepted and has the line, its parts that the set is accepted or has its lines.
// Each contract cites a walk of specs/, and proofs/ShowingLaws says what the walks mean.
#![tactic(auto)]

ghost use Rattle.std.specs.Prelude.{◌≡◌, ◌+◌, ◌≤◌, length, take, drop, Err, Ok};
ghost use Rattle.meaning.specs.Limits.{max_lines};
ghost use Rattle.meaning.specs.Refusals.{refusal};
ghost use Rattle.meaning.specs.Reading.{judge};
ghost use Rattle.meaning.specs.Entries.{entry_lead};
ghost use Rattle.meaning.specs.Views.{part};
ghost use Rattle.line_roll.specs.Rolled.{Lined};
ghost use Rattle.view_sheet.specs.Showing.{judged_entry, set_part, sheet_entry_at, EntryWithin, shown_last, shown_by_sheet, shown_under};

use correct_offer::Terms;
use entry_read::Head;
use line_roll::Roll;
use meaning::{Part, Refusal, SetType, Shape, Shown};

// The roll has room for the labels of any set.
const ROOM: usize = SetType::LINES;

// An entry of a sheet that keeps 21, 19, 20, 6, 14, 24: the number of its line, and the length of its content.
#[derive(Drop)]
pub struct SheetEntry {
    pub named: usize,
    pub length: usize,
}

// A refusal of an entry.
fn bad_entry(no: usize, place: usize, label: usize) -> Result<SheetEntry, Refusal>
    ensures { result ≡ Err (refusal no place label) }
{
    Err(Refusal { no, place, label })
}

// Where the content of a whole entry at an offset of the sheet stands, if it has this many bytes.
fn content_part(sheet: &[u8], at: usize, bytes: usize) -> Part
    requires { at + (entry_lead + bytes) ≤ length sheet.now }
    ensures { result ≡ part (at + entry_lead) bytes }
{
    Part {
        place: at + meaning::ENTRY_LEAD,
        length: bytes,
    }
}

// A whole entry at an offset of the sheet, for a line with this number and label: 20, 6, 14, 24.
fn judge_entry(
    sheet: &[u8],
    at: usize,
    named: usize,
    bytes: usize,
    label: usize,
    seven: bool,
) -> Result<SheetEntry, Refusal>
    requires { at + (entry_lead + bytes) ≤ length sheet.now }
    ensures { result ≡ judged_entry label (take bytes (drop (at + entry_lead) sheet.now)) seven at named bytes }
{
    let part = content_part(sheet, at, bytes);
    let start = part.place;
    let end = start + part.length;
    let content = &sheet[start..end];
    match correct_offer::judge_content(label, content, seven) {
        None => Ok(SheetEntry {
            named,
            length: bytes,
        }),
        Some(objection) => {
            let told = objection.refusal(label, content, at);
            if Refusal::tells_byte(told.no) {
                return bad_entry(told.no, start + told.place, told.label);
            }
            bad_entry(told.no, at, told.label)
        }
    }
}

// The entry of a sheet at an offset: "21 (cut only), 19, 20, 6, 14, with places in the sheet (the entry's first byte, for 6 the byte)", then 24, with the byte too. Of its line only the
// label counts, and the roll has it.
fn check_entry(
    terms: Terms,
    roll: &mut Roll<'_, ROOM>,
    sheet: &[u8],
    at: usize,
) -> Result<SheetEntry, Refusal>
    requires lined { Lined roll.old.set.now terms.lines }
    requires room { terms.lines ≤ max_lines }
    ensures { (result ≡ sheet_entry_at roll.old.set.now terms sheet.now at) × (roll.new.set.now ≡ roll.old.set.now) }
{
    match entry_read::entry_at(sheet, at) {
        None => bad_entry(Refusal::BAD_LIST, at, 0),
        Some(
            Head {
                label: named,
                length,
            },
        ) => {
            // 19, NoSuchLine: "line number 0 or beyond the set". No label is read for it.
            if named < 1 {
                return bad_entry(Refusal::NO_SUCH_LINE, at, 0);
            }
            if terms.lines < named {
                return bad_entry(Refusal::NO_SUCH_LINE, at, 0);
            }
            roll.read_to(named);
            judge_entry(sheet, at, named, length, roll.label_of(named), terms.seven)
        }
    }
}

// The part of the set that holds the content of a line. Here and in `shown_under` the set and its shape come as two values, since `view` has them so.
fn part_of_set(set: &[u8], shape: Shape, line: usize) -> Part
    requires accepted { judge set.now ≡ Ok shape }
    requires line_there { (1 ≤ line) × (line ≤ shape.lines) }
    ensures { result ≡ set_part set.now line }
{
    let x = correct_offer::line_after(set, line - 1);
    Part {
        place: x.at + meaning::LINE_LEAD,
        length: x.size - meaning::LINE_FRAME,
    }
}

// The part of the sheet that the last entry for a line holds, by the entry's offset; nothing of the set if there is none.
fn shown_last(sheet: &[u8], last: usize) -> Result<Shown, Refusal>
    requires { EntryWithin sheet.now last }
    ensures { result ≡ shown_last sheet.now last }
{
    if last < sheet.len() {
        let bytes = entry_read::told_length(sheet, last);
        return Ok(Shown::Sheet(content_part(sheet, last, bytes)));
    }
    Ok(Shown::Set(Part {
        place: 0,
        length: 0,
    }))
}

// What the sheet shows for a line: the part of the last entry for it, or nothing of the set if it has none. Each entry is judged.
fn shown_by_sheet(set: &[u8], terms: Terms, sheet: &[u8], line: usize) -> Result<Shown, Refusal>
    requires { Lined set.now terms.lines × (terms.lines ≤ max_lines) }
    ensures { result ≡ shown_by_sheet set.now terms sheet.now line }
{
    let mut last = sheet.len();
    let mut roll = Roll::of(set);
    let mut at = 0;
    while at < sheet.len() {
        let entry = check_entry(terms, &mut roll, sheet, at)?;
        last = view_part::later_entry(last, at, entry.named, line);
        at += meaning::ENTRY_LEAD + entry.length;
    }
    shown_last(sheet, last)
}

// What a line of an accepted set shows under a sheet: "the part of the sheet if the line has an entry there, else the part of the set".
pub fn shown_under(set: &[u8], shape: Shape, sheet: &[u8], line: usize) -> Result<Shown, Refusal>
    requires accepted { judge set.now ≡ Ok shape }
    requires line_there { (1 ≤ line) × (line ≤ shape.lines) }
    ensures { result ≡ shown_under set.now shape sheet.now line }
{
    // No room for labels is made then.
    if sheet.is_empty() {
        return Ok(Shown::Set(part_of_set(set, shape, line)));
    }
    let terms = correct_offer::terms_of(set, shape, sheet);
    let shown = shown_by_sheet(set, terms, sheet, line)?;
    match shown {
        Shown::Sheet(part) => Ok(Shown::Sheet(part)),
        Shown::Set(_) => Ok(Shown::Set(part_of_set(set, shape, line))),
    }
}
