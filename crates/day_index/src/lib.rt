// `build` and `append`: the index of a day file in a lent slice of numbers, made from nothing or extended by the set that was appended to the file.
// Both have no `requires`: any file, any old length, any numbers and any count. The other functions are their parts; every refusal comes before the first number is written.
#![tactic(auto)]

ghost use Rattle.std.specs.Prelude.{◌≡◌, ◌∷◌, [], ◌+◌, ◌*◌, ◌≤◌, length, drop, Ok};
ghost use Rattle.meaning.specs.Reading.{read, judged};
ghost use Rattle.meaning.specs.Answers.{made};
ghost use Rattle.byte_put.specs.Places.{over};
ghost use Rattle.meaning_day.specs.Days.{max_sets, placed, sets_from};
ghost use Rattle.meaning_day.specs.DayCalls.{columns, build_call, append_call};
ghost use Rattle.day_index.specs.Counting.{listed};

use meaning::{Refusal, Shape};
use meaning_day::DayEntry;

// The set at an offset of the file; "the set's own [refusals], placed in the file".
fn judge_at(file: &[u8], at: usize) -> Result<Shape, Refusal>
    requires { at ≤ length file.now }
    ensures { result ≡ judged (placed at (read (drop at file.now))) }
{
    match judge::judge(&file[at..]) {
        Ok(shape) => Ok(shape),
        Err(r) => Err(Refusal {
            place: at + r.place,
            ..r
        }),
    }
}

// How many sets the file has, each judged once; "a file of no bytes has none".
fn count_sets(file: &[u8]) -> Result<usize, Refusal>
    ensures { result ≡ made (sets_from max_sets 0 file.now) }
{
    let mut at: usize = 0;
    let mut count: usize = 0;
    // Where the next set starts is known only once this one is judged.
    while at < file.len() {
        let shape = judge_at(file, at)?;
        // "TooManySets (23) at the 2,049th"
        if count == meaning_day::SETS {
            return Err(Refusal::at(Refusal::TOO_MANY_SETS, at));
        }
        at += shape.length;
        count += 1;
    }
    Ok(count)
}

// The four numbers of an entry, in the order of `DayEntry`.
fn put_entry(index: &mut [usize], to: usize, entry: DayEntry)
    requires { to + 4 ≤ length index.old }
    ensures { index.new ≡ over to (columns (entry ∷ [])) index.old }
{
    let numbers = [entry.offset, entry.length, entry.settype, entry.place];
    index[to..to + meaning_day::ENTRY_NUMBERS].copy_from_slice(&numbers);
}

// The entries of a file whose sets were all counted: none is judged again.
fn put_sets(file: &[u8], count: usize, index: &mut [usize])
    requires counted { made (sets_from max_sets 0 file.now) ≡ Ok count }
    requires room { count * 4 ≤ length index.old }
    ensures { index.new ≡ over 0 (columns (listed (sets_from max_sets 0 file.now))) index.old }
{
    let mut at: usize = 0;
    for k in 0..count {
        let entry = day_entry::entry_at(file, at);
        put_entry(index, k * meaning_day::ENTRY_NUMBERS, entry);
        at += entry.length;
    }
}

// The index of a file with this many sets.
fn build_counted(file: &[u8], count: usize, index: &mut [usize]) -> Result<usize, Refusal>
    requires { made (sets_from max_sets 0 file.now) ≡ Ok count }
    ensures { (result ≡ (build_call file.now index.old).answer) × (index.new ≡ (build_call file.now index.old).buffer) }
{
    // "NoRoom"
    if index.len() / meaning_day::ENTRY_NUMBERS < count {
        return Err(Refusal::at(Refusal::NO_ROOM, count));
    }
    put_sets(file, count, index);
    Ok(count)
}

// "An index kept beside the file: for each set its offset, length, type and place of the 3000 content, in file order".
pub fn build(file: &[u8], index: &mut [usize]) -> Result<usize, Refusal>
    ensures { (result ≡ (build_call file.now index.old).answer) × (index.new ≡ (build_call file.now index.old).buffer) }
{
    let count = count_sets(file)?;
    build_counted(file, count, index)
}

// The entry of the accepted set after the first `old` bytes, put after `count` others.
fn append_accepted(
    file: &[u8],
    old: usize,
    shape: Shape,
    index: &mut [usize],
    count: usize,
) -> Result<usize, Refusal>
    requires { (old ≤ length file.now) × (judged (placed old (read (drop old file.now))) ≡ Ok shape) }
    ensures { (result ≡ (append_call file.now old index.old count).answer) × (index.new ≡ (append_call file.now old index.old count).buffer) }
{
    // 18: "another set follows (place: first set's length)"
    if shape.length < file.len() - old {
        return Err(Refusal::at(Refusal::BAD_USE, shape.length));
    }
    // "TooManySets (23) at the 2,049th"
    if meaning_day::SETS <= count {
        return Err(Refusal::at(Refusal::TOO_MANY_SETS, old));
    }
    // "NoRoom"
    if index.len() / meaning_day::ENTRY_NUMBERS <= count {
        return Err(Refusal::at(Refusal::NO_ROOM, count + 1));
    }
    put_entry(
        index,
        count * meaning_day::ENTRY_NUMBERS,
        day_entry::entry_at(file, old),
    );
    Ok(count + 1)
}

// "Appending a set behind a named old length extends the index of the old file".
pub fn append(file: &[u8], old: usize, index: &mut [usize], count: usize) -> Result<usize, Refusal>
    ensures { (result ≡ (append_call file.now old index.old count).answer) × (index.new ≡ (append_call file.now old index.old count).buffer) }
{
    // "18 in appending, as in corrections"
    if file.len() < old {
        return Err(Refusal::at(Refusal::BAD_USE, file.len()));
    }
    // 1, Empty, which `judge` would answer too: nothing was appended.
    if file.len() == old {
        return Err(Refusal::at(Refusal::EMPTY, old));
    }
    let shape = judge_at(file, old)?;
    append_accepted(file, old, shape, index, count)
}
