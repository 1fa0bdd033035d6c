// One line's step: 11 to 15 of the line, and what is open after it.
// `step_at`, which only other crates here call, assumes that its two offsets lie in order within the bytes that it is given. Each contract cites a walk of specs/, and
// proofs/StepMeaning says what the walks mean.
#![tactic(auto)]

ghost use Rattle.std.specs.Prelude.{◌≡◌, true, cond, ◌≤◌, ◌<◌, eqb, length, set};
ghost use Rattle.meaning.specs.declared.Row.{Row};
ghost use Rattle.meaning.specs.FieldTable.{field_row};
ghost use Rattle.meaning.specs.Groups.{belongs, names_row};
ghost use Rattle.judge_missing.specs.Lacks.{row_count, only_missing, flagged_of};
ghost use Rattle.judge_line.specs.Steps.{row_of, refused_by, repeated_no, place_no, version_no, fit_no, content_no, between, IsOpened, IsJoined, Stepped};

use judge_missing::State;
use meaning::{FieldRow, Kind, Refusal, SetType};
use table_find::TableRow;

// ---- 11 to 15 of one line: the number that it is refused by

// 13, Repeated: "single label again in the set or its group".
#[tactic(auto, unfolding(crate::specs::Steps::repeated_no))]
fn repeated(many: bool, seen: bool) -> Result<(), usize>
    ensures { result ≡ refused_by (repeated_no many seen) }
{
    if !many && seen {
        return Err(Refusal::REPEATED);
    }
    Ok(())
}

// A label whose row stands under this one belongs to the open header: an odd label right after its name, any other member under the header that its row names.
fn belongs_to(under: usize, header: usize, label: usize) -> bool
    ensures { (r : Row) → r.under ≡ under → result ≡ belongs r header label }
{
    if under != meaning::LABEL_6330 {
        return under == header;
    }
    if label < 1 {
        return false;
    }
    header == label - 1
}

// 12 and 13 of a line with this row.
#[tactic(auto, unfolding(crate::specs::Steps::place_no))]
fn placed(row: TableRow, state: &State, label: usize) -> Result<(), usize>
    requires { row.number < row_count }
    ensures { (r : Row) → r.under ≡ row.under → r.many ≡ row.many → result ≡ refused_by (place_no row.number r state.now.header state.now.members state.now.top label) }
{
    if row.under == table_find::SET_LEVEL {
        return repeated(row.many, judge_missing::has(&state.top, row.number));
    }
    if belongs_to(row.under, state.header, label) {
        return repeated(row.many, judge_missing::has(&state.members, row.number));
    }
    Err(Refusal::STRAY)
}

// 15, OtherVersion, of a content that fits.
#[tactic(auto, unfolding(crate::specs::Steps::version_no))]
fn version(label: usize, content: &[u8]) -> Result<(), usize>
    ensures { result ≡ refused_by (version_no label content.now) }
{
    if label == meaning::LABEL_9218 && !table_kinds::is_0210(content) {
        return Err(Refusal::OTHER_VERSION);
    }
    Ok(())
}

// 14, BadContent, and 15 of a label with this kind and a content of fitting length.
#[tactic(auto, unfolding(crate::specs::Steps::fit_no))]
fn fits_kind(kind: Kind, label: usize, content: &[u8]) -> Result<(), usize>
    ensures { result ≡ refused_by (fit_no kind label content.now) }
{
    if !table_kinds::of_kind(kind, content) {
        return Err(Refusal::BAD_CONTENT);
    }
    version(label, content)
}

// 14 and 15 of a label with this field and the content from one offset to another.
fn fits(field: FieldRow, label: usize, s: &[u8], from: usize, end: usize) -> Result<(), usize>
    requires { (from ≤ end) × (end ≤ length s.now) }
    ensures { field ≡ field_row label → result ≡ refused_by (content_no label (between s.now from end)) }
{
    if !table_kinds::has_length(field, end - from) {
        return Err(Refusal::BAD_CONTENT);
    }
    match field.kind {
        // "alnum: any content bytes."
        Kind::Alnum => Ok(()),
        kind => fits_kind(kind, label, &s[from..end]),
    }
}

// ---- one line's step

// A set-level line with row number i opens its own group, with no member yet. The group before it ends.
fn opened(settype: SetType, state: &mut State, at: usize, label: usize, i: usize)
    requires { i < row_count }
    ensures next { IsOpened settype at label i state.old state.new }
    ensures by_missing { only_missing state.old.lack → only_missing state.new.lack }
{
    // by cases: the answer stored as one value takes more instructions a line
    match judge_missing::first_lack(settype, state) {
        Some(lack) => state.lack = Some(lack),
        None => state.lack = None,
    }
    state.header = label;
    state.place = at;
    judge_missing::mark(&mut state.top, i);
    judge_missing::clear(&mut state.members);
}

// A member with row number i that stands under this label joins the open group. "An odd label 6331 to 6399 stands nowhere else", so nothing follows it in its pair.
fn joined(state: &mut State, under: usize, i: usize)
    requires { i < row_count }
    ensures { IsJoined under i state.old state.new }
{
    judge_missing::mark(&mut state.members, i);
    if under == meaning::LABEL_6330 {
        state.header = 0;
    }
}

// One line with its content from one offset to another: 11, 12, 13, 14, 15; else what is then open, and the labels that were seen.
pub fn step_at(
    settype: SetType,
    state: &mut State,
    at: usize,
    label: usize,
    s: &[u8],
    from: usize,
    end: usize,
) -> Result<(), usize>
    requires { (from ≤ end) × (end ≤ length s.now) }
    ensures step { Stepped (row_of settype label) settype state.old at label (between s.now from end) result state.new }
    ensures by_missing { only_missing state.old.lack → only_missing state.new.lack }
{
    let Some(row) = table_find::find_row(settype, label) else {
        return Err(Refusal::NOT_IN_SET);
    };
    placed(row, state, label)?;
    fits(row.field, label, s, from, end)?;
    if row.under == table_find::SET_LEVEL {
        opened(settype, state, at, label, row.number);
        return Ok(());
    }
    joined(state, row.under, row.number);
    Ok(())
}

#[cfg(test)]
mod tests {
    use super::*;

    // A line with this content at an offset, in a 6310 set, for a caller that knows 16 alone.
    fn step(state: &mut State, at: usize, label: usize, content: &[u8]) -> Result<(), usize>
        requires { only_missing state.old.lack }
        ensures { only_missing state.new.lack }
    {
        step_at(SetType::T6310, state, at, label, content, 0, content.len())
    }

    #[test]
    fn what_a_group_lacks_is_told_by_16(rt: HostRuntime) {
        let mut state = State::new();
        assert_eq!(rt; step(&mut state, 40, 8410, b"HF"), Ok(()));
        assert_eq!(rt; step(&mut state, 60, 8420, b"171"), Ok(()));
        assert_eq!(rt; step(&mut state, 80, 6303, b"1"), Err(Refusal::STRAY));
        assert!(rt; state.lack.is_none());
        assert_eq!(rt; step(&mut state, 80, 8410, b"VO2"), Ok(()));
        assert_eq!(rt;
            state.lack.map(|r| (r.no, r.place, r.label)),
            Some((16, 40, 8421))
        );
    }
}
