// `judge_list`: what a field list is that a set is written from, or its first refusal by 7, 21, 6, 8, 9, 11 to 16, 24.
// It has no `requires`. The other functions are its parts; each contract cites a walk of specs/, and proofs/EntryPass says what the walks mean.
#![tactic(auto)]

ghost use Rattle.std.specs.Prelude.{◌≡◌, ◌<◌, length};
ghost use Rattle.meaning.specs.Limits.{max_entries};
ghost use Rattle.meaning.specs.Answers.{no_refusal};
ghost use Rattle.judge_missing.specs.Lacks.{finish_then, flagged_of, told};
ghost use Rattle.write_seven.specs.ListSeven.{high_in_list, if_any};
ghost use Rattle.write_judge.specs.Judging.{check_entry, check_some, Checked, entries_pass, started, judge_entries, judged_list};

use entry_read::Head;
use judge_missing::State;
use meaning::{Refusal, SetType};

// "more than 511 (7)": 8100 has no entry.
const ENTRIES: usize = SetType::LINES - 1;

// The largest number that four digits write.
const MAX_LABEL: usize = 9_999;

// A content of fewer bytes is not tested by blocks, of which the last would start in the head before it.
const SHORT: usize = 8;

// ---- 7, 21, 6 of each entry

// The length of the content of the entry at an offset, or the first of 21 and 6 that it breaks: "places are offsets in the list".
fn check_entry(list: &[u8], at: usize) -> Result<usize, Refusal>
    ensures { result ≡ check_entry list.now at }
{
    // 21, BadList: "list entry cut"
    let Some(Head { label, length }) = entry_read::entry_at(list, at) else {
        return Err(Refusal::at(Refusal::BAD_LIST, at));
    };
    // 21, BadList: "or label over 9999"
    if MAX_LABEL < label {
        return Err(Refusal::at(Refusal::BAD_LIST, at));
    }
    // 6, BadByte: "content byte under 20h; place is that byte"
    let content = at + meaning::ENTRY_LEAD;
    let end = content + length;
    if SHORT <= length {
        if byte_low::clean_content(list, content, end) {
            return Ok(length);
        }
    }
    let low = byte_low::first_low(list, content, length);
    if low < end {
        return Err(Refusal::at(Refusal::BAD_BYTE, low));
    }
    Ok(length)
}

// The entries of a list, each by 7, 21, 6: their number, or the first refusal. A list without a byte has its first entry cut.
fn check_list(list: &[u8]) -> Result<usize, Refusal>
    ensures { result ≡ check_some list.now 0 max_entries }
{
    let mut at: usize = 0;
    for before in 0..ENTRIES {
        let length = check_entry(list, at)?;
        at += meaning::ENTRY_LEAD + length;
        if at == list.len() {
            return Ok(before + 1);
        }
    }
    // 7, TooManyLines
    Err(Refusal::at(Refusal::TOO_MANY_LINES, at))
}

// ---- 8, 9, 11 to 16, 24

// 16 after the last entry; then 24, if 9206 was seen.
fn lacks_or_high(list: &[u8], settype: SetType, state: &State) -> Option<Refusal>
    ensures { result ≡ if_any (finish_then settype (flagged_of state.now) (told state.now.lack) (high_in_list list.now)) }
{
    if let Some(lack) = judge_missing::finish_at(settype, state) {
        return Some(lack);
    }
    if judge_missing::has_9206(&state.top) {
        return write_seven::high_in_list(list);
    }
    None
}

// 11 to 15 of the entries from an offset on, then 16 and 24. Line 1 and line 2 ("the writer adds it") stand before them, and are never refused here.
fn pass_entries(list: &[u8], t: SetType, start: usize) -> Option<Refusal>
    requires { Checked list.now start }
    ensures { result ≡ if_any (entries_pass list.now t start started no_refusal) }
{
    let mut state = State::new();
    state.top[judge_missing::NO_8000] = true;
    state.top[judge_missing::NO_8100] = true;
    state.header = meaning::LABEL_8100;
    let mut at = start;
    while at < list.len() {
        let label = entry_read::told_label(list, at);
        let from = at + meaning::ENTRY_LEAD;
        let end = from + entry_read::told_length(list, at);
        if let Err(no) = judge_line::step_at(t, &mut state, at, label, list, from, end) {
            return Some(Refusal {
                no,
                place: at,
                label,
            });
        }
        at = end;
    }
    lacks_or_high(list, t, &state)
}

// 8, 9, 11 to 16 and 24 of a list whose entries are checked.
fn judge_entries(list: &[u8]) -> Option<Refusal>
    requires { (0 < length list.now) × Checked list.now 0 }
    ensures { result ≡ if_any (judge_entries list.now) }
{
    // 8, NoStart: "line 1 is not 8000"
    if entry_read::told_label(list, 0) != meaning::LABEL_8000 {
        return Some(Refusal::at(Refusal::NO_START, 0));
    }
    // 9, UnknownSet: "8000 names none of the five"
    let end = meaning::ENTRY_LEAD + entry_read::told_length(list, 0);
    let Some(settype) = judge_start::type_of(&list[meaning::ENTRY_LEAD..end]) else {
        return Some(Refusal::at(Refusal::UNKNOWN_SET, 0));
    };
    pass_entries(list, settype, end)
}

// "It checks entries in order: more than 511 (7), 21, 6; then 8, 9, and 11 to 16", and 24. A list that 7, 21 or 6 refuses is not judged by the rules.
pub fn judge_list(list: &[u8]) -> Result<usize, Refusal>
    ensures { result ≡ judged_list list.now }
{
    let entries = check_list(list)?;
    match judge_entries(list) {
        Some(r) => Err(r),
        None => Ok(entries),
    }
}
