// `write`: the set of a field list, put into a lent buffer, in the writer's own order of refusals.
// It has no `requires`. The other functions are its parts, with walks of specs/ in their contracts; proofs/WriteLaws says what the walks mean.
#![tactic(auto)]

ghost use Rattle.std.specs.Prelude.{◌≡◌, ◌≤◌, ◌<◌, length, Ok};
ghost use Rattle.meaning.specs.Digits.{digits};
ghost use Rattle.meaning.specs.Lists.{sum_digits};
ghost use Rattle.meaning.specs.Answers.{write_call};
ghost use Rattle.byte_put.specs.Places.{over};
ghost use Rattle.write_judge.specs.Judging.{judged_list};
ghost use Rattle.write.specs.Writing.{lines_left};

use entry_read::Head;
use meaning::{Refusal, SetType};

// ---- the lines

// The lines of the entries of a list, line after line, with that of 8100 for a set of `total` bytes.
fn put_set(list: &[u8], total: usize, out: &mut [u8])
    requires { length (lines_left list.now (digits sum_digits total) 0) ≤ length out.old }
    ensures { out.new ≡ over 0 (lines_left list.now (digits sum_digits total) 0) out.old }
{
    let mut at: usize = 0;
    let mut to: usize = 0;
    while let Some(Head { label, length }) = entry_read::entry_at(list, at) {
        let from = at + meaning::ENTRY_LEAD;
        let end = from + length;
        to = write_lines::put_lines(at, label, &list[from..end], total, out, to);
        at = end;
    }
}

// ---- the set

// The set of a list whose n entries are not refused.
fn write_entries(list: &[u8], n: usize, out: &mut [u8]) -> Result<usize, Refusal>
    requires { (0 < length list.now) × (judged_list list.now ≡ Ok n) }
    ensures { (result ≡ (write_call list.now out.old).answer) × (out.new ≡ (write_call list.now out.old).buffer) }
{
    // 22, NoRoom: "the new total is over the buffer or over 99,999"; "place: the need"
    let total = list.len() + n * meaning::LINE_OVER_ENTRY + meaning::SUM_LINE;
    if out.len() < total {
        return Err(Refusal::at(Refusal::NO_ROOM, total));
    }
    if SetType::SET_BYTES < total {
        return Err(Refusal::at(Refusal::NO_ROOM, total));
    }
    put_set(list, total, out);
    byte_put::clear(&mut out[total..]);
    Ok(total)
}

// The set of a field list: 1; each entry by 7, 21, 6; "then 8, 9, and 11 to 16 as above", 24; "then 22".
pub fn write(list: &[u8], out: &mut [u8]) -> Result<usize, Refusal>
    ensures { (result ≡ (write_call list.now out.old).answer) × (out.new ≡ (write_call list.now out.old).buffer) }
{
    // 1, Empty: "a set or list of no bytes"
    if list.len() == 0 {
        return Err(Refusal::at(Refusal::EMPTY, 0));
    }
    let entries = write_judge::judge_list(list)?;
    write_entries(list, entries, out)
}
