// What the correction of one line of an accepted set comes to, before any byte is written: 18 (second set), 19, 20, 6, 14, 24, 22, or where the line stands and how many bytes count then.
// Assumes nothing: that the set was accepted, an `AcceptedSet` holds. The contract of `plan_judged` cites a definition of specs/.
#![tactic(auto)]

ghost use Rattle.std.specs.Prelude.{◌≡◌};
ghost use Rattle.correct_plan.specs.Planned.{within_room, planned};

use correct_offer::AcceptedSet;
use meaning::{Refusal, SetType};

// What a correction that is not refused comes to: the line stands at this place, its content has `old` bytes, and the corrected set has `total` bytes.
#[derive(Drop)]
pub struct Change {
    pub place: usize,
    pub old: usize,
    pub total: usize,
}

// 22, NoRoom: "the new total is over the buffer or over 99,999"; "place: the need".
fn plan_total(room: usize, place: usize, old: usize, total: usize) -> Result<Change, Refusal>
    ensures { result ≡ within_room room place old total }
{
    if room < total || SetType::SET_BYTES < total {
        return Err(Refusal::at(Refusal::NO_ROOM, total));
    }
    Ok(Change { place, old, total })
}

// "18 (second set), 19, 20, 6 (place in the new content), 14 (empty included), 22", with 24 after 14: for a set that was accepted.
pub fn plan_judged(
    set: AcceptedSet<'_>,
    room: usize,
    line: usize,
    content: &[u8],
) -> Result<Change, Refusal>
    ensures { result ≡ planned set.entry.bytes.now room line content.now }
{
    // 18, BadUse: "another set follows (place: first set's length)"
    if set.shape.length < set.bytes.len() {
        return Err(Refusal::at(Refusal::BAD_USE, set.shape.length));
    }
    let found = correct_offer::judge_change(set.bytes, set.shape, line, content)?;
    let old = found.size - meaning::LINE_FRAME;
    let total = set.bytes.len() - old + content.len();
    plan_total(room, found.at, old, total)
}
