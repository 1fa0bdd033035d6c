// What recoding an accepted set comes to, before any byte is written: 18 (second set), 7, 27, 22, or what is to be done.
// Assumes of `plan_judged` that the set lies in the room: only another crate here calls it, and proves that. That it was accepted, an `AcceptedSet` holds. Its contract cites a
// definition of specs/.
#![tactic(auto)]

ghost use Rattle.std.specs.Prelude.{◌≡◌, ◌≤◌, length, Err};
ghost use Rattle.meaning.specs.Refusals.{refusal};
ghost use Rattle.byte_high.specs.High.{plain_front};
ghost use Rattle.line_find.specs.FirstPlace.{first_place};
ghost use Rattle.recode_plan.specs.RecodePlans.{gained_by, Alone, planned};

use correct_offer::AcceptedSet;
use meaning::{Refusal, SetType, Shape};
use meaning_recode::Code;

// "Gains that line": 9206, whose content is one byte.
pub const GAINED: usize = 1 + meaning::LINE_FRAME;

// What recoding comes to that is not refused.
#[derive(Drop)]
pub enum Plan {
    // "A set already in the wanted code stays as it is."
    Stays,
    // "Sets with 9206 = 1 only change that content": it stands at this place.
    Marks { place: usize },
    // Every content is recoded, and 9206, whose content stands at this place, names the wanted code page. `plain` bytes of the set are in front of its first one over 7Fh.
    Recodes { plain: usize, place: usize },
    // Every content is recoded, and the set gains 9206 as line 3. `plain` is as above.
    Gains { plain: usize },
}

// A refusal that carries no label.
fn refused_plan(no: usize, place: usize) -> Result<Plan, Refusal>
    ensures { result ≡ Err (refusal no place 0) }
{
    Err(Refusal::at(no, place))
}

// A set of this length that gains a line, so that it has `total` bytes, if its first byte without a character is `without`: "NoSuchCharacter (27) ..; NoRoom last".
fn plan_gained(
    length: usize,
    plain: usize,
    without: usize,
    total: usize,
    room: usize,
) -> Result<Plan, Refusal>
    ensures { result ≡ gained_by length plain without total room }
{
    // 27, NoSuchCharacter: "at the first such byte"
    if without < length {
        return refused_plan(Refusal::NO_SUCH_CHARACTER, without);
    }
    // 22, NoRoom; no accepted set comes to be "over 99,999" by one line
    if room < total {
        return refused_plan(Refusal::NO_ROOM, total);
    }
    Ok(Plan::Gains { plain })
}

// A set without 9206, if 1252 is wanted: "gains that line".
fn plan_gain(set: &[u8], shape: Shape, room: usize) -> Result<Plan, Refusal>
    requires { Alone set.now shape room × (first_place set.now 9206 ≡ 0) }
    ensures { result ≡ planned set.now room Code.Page1252 }
{
    // 7, TooManyLines: "where the added line would be the 513th (place: set length)"
    if SetType::LINES <= shape.lines {
        return refused_plan(Refusal::TOO_MANY_LINES, shape.length);
    }
    let plain = byte_high::plain_front(set);
    let table = recode_table::table_into(Code::Page1252);
    let without = recode_bytes::first_without(set, plain, table);
    plan_gained(set.len(), plain, without, set.len() + GAINED, room)
}

// "A set without 9206 counts as code page 437."
fn plan_unmarked(set: &[u8], shape: Shape, room: usize, wanted: Code) -> Result<Plan, Refusal>
    requires { Alone set.now shape room × (first_place set.now 9206 ≡ 0) }
    ensures { result ≡ planned set.now room wanted }
{
    match wanted {
        Code::Page437 => Ok(Plan::Stays),
        Code::Page1252 => plan_gain(set, shape, room),
    }
}

// A set whose 9206 has its content, one byte, at this place. Its length stays, so 7 and 22 cannot be.
fn plan_marked(
    set: &[u8],
    shape: Shape,
    room: usize,
    place: usize,
    wanted: Code,
) -> Result<Plan, Refusal>
    requires { Alone set.now shape room × (place ≡ first_place set.now 9206) × (place ≡ 0 → ⊥) }
    ensures { result ≡ planned set.now room wanted }
{
    if set[place] == recode_table::mark_of(wanted) {
        return Ok(Plan::Stays);
    }
    if set[place] == meaning::SEVEN_BITS {
        return Ok(Plan::Marks { place });
    }
    // 27, NoSuchCharacter: "at the first such byte"
    let plain = byte_high::plain_front(set);
    let table = recode_table::table_into(wanted);
    let first = recode_bytes::first_without(set, plain, table);
    if first < set.len() {
        return refused_plan(Refusal::NO_SUCH_CHARACTER, first);
    }
    Ok(Plan::Recodes { plain, place })
}

// "Refusals, after all set refusals: TooManyLines ..; NoSuchCharacter (27) ..; NoRoom last", with 18 (second set) before them: for a set that was accepted.
pub fn plan_judged(set: AcceptedSet<'_>, room: usize, wanted: Code) -> Result<Plan, Refusal>
    requires { length set.bytes.now ≤ room }
    ensures { result ≡ planned set.entry.bytes.now room wanted }
{
    // 18, BadUse: "another set follows (place: first set's length)"
    if set.shape.length < set.bytes.len() {
        return refused_plan(Refusal::BAD_USE, set.shape.length);
    }
    let place = line_find::first_place(set.bytes, meaning::LABEL_9206);
    if place == 0 {
        return plan_unmarked(set.bytes, set.shape, room, wanted);
    }
    plan_marked(set.bytes, set.shape, room, place, wanted)
}
