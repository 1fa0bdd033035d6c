// The entry of a set that was judged before: its bytes are taken as they stand, and no rule is asked again.
// Assumes of `entry_at`, which only other crates here call, that the offset lies within the file. Each contract cites a walk of specs/ToldEntry, and `entry-told` in proofs/ToldEntryLaws
// says what the walk is for an accepted set.
#![tactic(auto)]

ghost use Rattle.std.specs.Prelude.{◌≡◌, ◌≤◌, length};
ghost use Rattle.day_entry.specs.ToldEntry.{number_in, told_entry};

use meaning_day::DayEntry;

// The number that k bytes at an offset write; 0 if they write none.
fn number_in(set: &[u8], at: usize, k: usize) -> usize
    ensures { result ≡ number_in set.now at k }
{
    match line_read::number_at(set, at, k) {
        Some(number) => number,
        None => 0,
    }
}

// "For each set its offset, length, type and place of the 3000 content": the length is what 8100 writes, the type what 8000 writes; the place is that of the first 3000 line, which the lengths of the lines before it lead to.
#[inline(always)]
pub fn entry_at(file: &[u8], at: usize) -> DayEntry
    requires { at ≤ length file.now }
    ensures { result ≡ told_entry file.now at }
{
    let length = number_in(&file[at..], meaning::SUM_PLACE, meaning::SUM_DIGITS);
    let settype = number_in(&file[at..], meaning::LINE_LEAD, meaning::TYPE_DIGITS);
    let place = line_find::first_place(&file[at..], meaning::LABEL_3000);
    DayEntry {
        offset: at,
        length,
        settype,
        place: at + place,
    }
}
