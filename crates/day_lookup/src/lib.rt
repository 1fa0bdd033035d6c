// `lookup`: the sets of a patient, by an index of a day file, in a lent slice of numbers.
// It has no `requires`: any file, any numbers as an index, any asked bytes. The other functions are its parts, with walks of specs/ in their contracts; proofs/SearchLaws says what the
// walks mean.
#![tactic(auto)]

ghost use Rattle.std.specs.Prelude.{◌≡◌, ◌+◌, ◌≤◌, length};
ghost use Rattle.byte_put.specs.Places.{over};
ghost use Rattle.meaning_day.specs.DayCalls.{entries_in, lookup_call};
ghost use Rattle.day_lookup.specs.Searching.{stands_at, number_if, standing};

use meaning::Refusal;
use meaning_day::ENTRY_NUMBERS;

// This many numbers of an entry stand before its place.
const BEFORE_PLACE: usize = ENTRY_NUMBERS - 1;

// Whether "the asked bytes .. and 0Dh 0Ah stand at" a place of the file. The end is asked first, and then the bytes from the last one on, up to the first that differs: the numbers of two
// patients often start alike. So a search in which no two entries have one place asks each byte of the file at most once; by `==` of the two slices it would not.
fn stands_at(file: &[u8], place: usize, asked: &[u8]) -> bool
    ensures { result ≡ stands_at file.now place asked.now }
{
    let need = asked.len() + meaning::LINE_END;
    if file.len() < need {
        return false;
    }
    if file.len() - need < place {
        return false;
    }
    let end = place + asked.len();
    if file[end] != meaning::CR {
        return false;
    }
    if file[end + 1] != meaning::LF {
        return false;
    }
    // Counted up, the first time one before the end: by `rev` a search takes more instructions.
    for i in 1..asked.len() + 1 {
        if file[end - i] != asked[asked.len() - i] {
            return false;
        }
    }
    true
}

// How many entries have the asked bytes at their place.
fn count_matches(file: &[u8], index: &[usize], asked: &[u8]) -> usize
    ensures { result ≡ length (standing file.now asked.now 1 (entries_in index.now)) }
{
    let mut count: usize = 0;
    for entry in index.chunks_exact(ENTRY_NUMBERS) {
        count += usize::from(stands_at(file, entry[BEFORE_PLACE], asked));
    }
    count
}

// The number of an entry, put after those found before it if it matches; how many are found then.
fn put_match(so: bool, number: usize, out: &mut [usize], found: usize) -> usize
    requires { found + length (number_if so number) ≤ length out.old }
    ensures { (result ≡ found + length (number_if so number)) × (out.new ≡ over found (number_if so number) out.old) }
{
    if so {
        out[found] = number;
        return found + 1;
    }
    found
}

// "All sets whose 3000 content has the same bytes, each once, in file order", by their numbers from 1. The search ends with the last one.
fn put_matches(file: &[u8], index: &[usize], asked: &[u8], count: usize, out: &mut [usize])
    requires { (count ≡ length (standing file.now asked.now 1 (entries_in index.now))) × (count ≤ length out.old) }
    ensures { out.new ≡ over 0 (standing file.now asked.now 1 (entries_in index.now)) out.old }
{
    let mut found: usize = 0;
    for (k, entry) in index.chunks_exact(ENTRY_NUMBERS).enumerate() {
        if found == count {
            return;
        }
        let so = stands_at(file, entry[BEFORE_PLACE], asked);
        found = put_match(so, k + 1, out, found);
    }
}

// "Lookup answers all sets whose 3000 content has the same bytes".
pub fn lookup(
    file: &[u8],
    index: &[usize],
    asked: &[u8],
    out: &mut [usize],
) -> Result<usize, Refusal>
    ensures { (result ≡ (lookup_call file.now index.now asked.now out.old).answer) × (out.new ≡ (lookup_call file.now index.now asked.now out.old).buffer) }
{
    // "the asked bytes, none under 20h"
    if byte_low::first_low(asked, 0, asked.len()) < asked.len() {
        return Ok(0);
    }
    let count = count_matches(file, index, asked);
    // "NoRoom, from lookup too"
    if out.len() < count {
        return Err(Refusal::at(Refusal::NO_ROOM, count));
    }
    put_matches(file, index, asked, count, out);
    Ok(count)
}
