// Which labels were seen, as flags by the label's number, and rule 16: what a group and the set lack.
// `finish_at` has no `requires`; `has` and `mark`, which only other crates here call, assume that a label has the number that they are given. Each contract
// cites a walk of specs/, and proofs/LackMeaning says what the walks mean.
#![tactic(auto)]

ghost use Rattle.std.specs.Prelude.{◌≡◌, IsTrue, true, false, ◌<◌, get_or, set};
ghost use Rattle.meaning.specs.Refusals.{refusal, missing};
ghost use Rattle.meaning.specs.Tables.{row_label};
ghost use Rattle.judge_missing.specs.Lacks.{row_count, no_flags, seen, valued, lack8437, lack8410, lack_name, lack_under, lack_by, in_rows, group_lack, open_lack, first_lack, set_lack, finish, told, told_lack, has_number, only_missing, flagged_of, before_lines};

use meaning::{Refusal, SetType};
use table_fields as fields;

// The labels of the field table; the flags go by their numbers.
pub const ROWS: usize = 57;

pub const NO_8000: usize = fields::NO_8000;

pub const NO_8100: usize = fields::NO_8100;

// Labels that 16 asks for, lowest first, each after its number. "Required at set level: 8000, 8100, 9218, 3000 in all".
const BASIC: [(usize, usize); 4] = [
    (fields::NO_3000, meaning::LABEL_3000),
    (fields::NO_8000, meaning::LABEL_8000),
    (fields::NO_8100, meaning::LABEL_8100),
    (fields::NO_9218, meaning::LABEL_9218),
];

// "3101, 3102, 3103 also in 6301 and 6302".
const PATIENT: [(usize, usize); 7] = [
    (fields::NO_3000, meaning::LABEL_3000),
    (fields::NO_3101, meaning::LABEL_3101),
    (fields::NO_3102, meaning::LABEL_3102),
    (fields::NO_3103, meaning::LABEL_3103),
    (fields::NO_8000, meaning::LABEL_8000),
    (fields::NO_8100, meaning::LABEL_8100),
    (fields::NO_9218, meaning::LABEL_9218),
];

// "8402 also in 6310".
const TEST: [(usize, usize); 5] = [
    (fields::NO_3000, meaning::LABEL_3000),
    (fields::NO_8000, meaning::LABEL_8000),
    (fields::NO_8100, meaning::LABEL_8100),
    (fields::NO_8402, meaning::LABEL_8402),
    (fields::NO_9218, meaning::LABEL_9218),
];

// A 6302 group: "6303, 6304 and 6305 are its members, each required once".
const ARCHIVE: [(usize, usize); 3] = [
    (fields::NO_6303, meaning::LABEL_6303),
    (fields::NO_6304, meaning::LABEL_6304),
    (fields::NO_6305, meaning::LABEL_6305),
];

// What 16 asks for and is not there: its label, and the place of the header's line, 0 at set level.
#[derive(Clone, Copy)]
pub struct Lack {
    pub place: usize,
    pub label: usize,
}

impl Lack {
    // The refusal of it: 16, Missing.
    pub fn refusal(self) -> Refusal
        ensures { result ≡ refusal missing self.place self.label }
    {
        Refusal {
            no: Refusal::MISSING,
            place: self.place,
            label: self.label,
        }
    }
}

// What the lines so far leave: the open header or name (0: none), the place of its line, the refusal of the first group that ended with a
// lack (number 0 is none, too), and which labels were seen: in the open group, and at set level.
#[derive(Drop)]
pub struct State {
    pub header: usize,
    pub place: usize,
    pub lack: Option<Refusal>,
    pub members: [bool; ROWS],
    pub top: [bool; ROWS],
}

impl State {
    // No line was read, and no label was seen.
    pub fn new() -> State
        ensures { result ≡ before_lines }
    {
        State {
            header: 0,
            place: 0,
            lack: None,
            members: [false; ROWS],
            top: [false; ROWS],
        }
    }
}

// ---- which labels were seen

// The label with this number was seen.
pub fn has(flags: &[bool; ROWS], i: usize) -> bool
    requires { i < row_count }
    ensures { result ≡ get_or flags.now i false }
{
    flags[i]
}

// The label with this number is seen now.
pub fn mark(flags: &mut [bool; ROWS], i: usize)
    requires { i < row_count }
    ensures { flags.new ≡ set flags.old i true }
{
    flags[i] = true;
}

// 9206 was seen.
#[tactic(auto, unfolding(crate::specs::Lacks::seen, table_fields::specs::LabelNumbers::label_number, table_fields::specs::LabelNumbers::rows_before, meaning::specs::FieldTable::field_table))]
pub fn has_9206(flags: &[bool; ROWS]) -> bool
    ensures { result ≡ seen flags.now 9206 }
{
    has(flags, fields::NO_9206)
}

// No label was seen.
pub fn clear(flags: &mut [bool; ROWS])
    ensures { flags.new ≡ no_flags }
{
    *flags = [false; ROWS];
}

// ---- 16: what a group and the set lack

// The first of these labels that was not seen.
fn first_unseen<const N: usize>(
    flags: &[bool; ROWS],
    labels: &[(usize, usize); N],
    place: usize,
) -> Option<Lack>
    requires { IsTrue (in_rows labels.now) }
    ensures { told_lack result ≡ lack_by flags.now place labels.now }
{
    for (number, label) in labels {
        if !has(flags, *number) {
            return Some(Lack {
                place,
                label: *label,
            });
        }
    }
    None
}

// A group that has a value or a limit.
#[tactic(auto, unfolding(crate::specs::Lacks::valued, crate::specs::Lacks::seen, table_fields::specs::LabelNumbers::label_number, table_fields::specs::LabelNumbers::rows_before, meaning::specs::FieldTable::field_table))]
fn has_value(members: &[bool; ROWS]) -> bool
    ensures { result ≡ valued (seen members.now) }
{
    has(members, fields::NO_8420) || has(members, fields::NO_8461) || has(members, fields::NO_8462)
}

// An 8410 group: "8437 is required in a group that has 8438", 8421 in one that has a value or a limit.
#[tactic(auto, unfolding(crate::specs::Lacks::lack8410, crate::specs::Lacks::seen, table_fields::specs::LabelNumbers::label_number, table_fields::specs::LabelNumbers::rows_before, meaning::specs::FieldTable::field_table))]
fn lack_8410(members: &[bool; ROWS], place: usize) -> Option<Lack>
    ensures { told_lack result ≡ lack8410 (seen members.now) place }
{
    if has_value(members) && !has(members, fields::NO_8421) {
        return Some(Lack {
            place,
            label: meaning::LABEL_8421,
        });
    }
    lack_8437(members, place)
}

#[tactic(auto, unfolding(crate::specs::Lacks::lack8437, crate::specs::Lacks::seen, table_fields::specs::LabelNumbers::label_number, table_fields::specs::LabelNumbers::rows_before, meaning::specs::FieldTable::field_table))]
fn lack_8437(members: &[bool; ROWS], place: usize) -> Option<Lack>
    ensures { told_lack result ≡ lack8437 (seen members.now) place }
{
    if has(members, fields::NO_8438) && !has(members, fields::NO_8437) {
        return Some(Lack {
            place,
            label: meaning::LABEL_8437,
        });
    }
    None
}

// A name: "the next line must be the label one higher".
#[tactic(auto, unfolding(crate::specs::Lacks::lack_name, crate::specs::Lacks::seen, table_fields::specs::LabelNumbers::label_number, table_fields::specs::LabelNumbers::rows_before, meaning::specs::FieldTable::field_table))]
fn lack_name(members: &[bool; ROWS], name: usize, place: usize) -> Option<Lack>
    requires { name < 10000 }
    ensures { told_lack result ≡ lack_name (seen members.now) name place }
{
    if has(members, fields::NO_6331) {
        return None;
    }
    Some(Lack {
        place,
        label: name + 1,
    })
}

// What the group of a header lacks in a 6310 set.
#[tactic(auto, unfolding(crate::specs::Lacks::lack_under, meaning::specs::Tables::row_label))]
fn lack_under(members: &[bool; ROWS], header: usize, place: usize) -> Option<Lack>
    ensures { told_lack result ≡ lack_under (row_label header) (seen members.now) header place }
{
    // 6302 is the lowest header of a group; 0 is none
    if header < meaning::LABEL_6302 {
        return None;
    }
    if header == meaning::LABEL_8410 {
        return lack_8410(members, place);
    }
    if header == meaning::LABEL_6302 {
        return first_unseen(members, &ARCHIVE, place);
    }
    // "Even labels 6330 to 6398 are names"
    if fields::is_pair(header) && header % 2 == 0 {
        return lack_name(members, header, place);
    }
    None
}

// What the group of a header lacks: only 6310 has groups.
#[tactic(auto, unfolding(crate::specs::Lacks::group_lack))]
fn group_lack(settype: SetType, members: &[bool; ROWS], header: usize, place: usize) -> Option<Lack>
    ensures { told_lack result ≡ group_lack settype (seen members.now) header place }
{
    match settype {
        SetType::T6310 => lack_under(members, header, place),
        SetType::T6300 | SetType::T6301 | SetType::T6302 | SetType::T6311 => None,
    }
}

// The refusal of what the open group lacks, which ends here. Without one nothing is lacking.
fn open_lack(settype: SetType, state: &State) -> Option<Refusal>
    ensures lack_so { told result ≡ open_lack settype state.now.header state.now.place state.now.members }
    ensures numbered { has_number result }
    ensures by_missing { only_missing result }
{
    match group_lack(settype, &state.members, state.header, state.place) {
        Some(lack) => Some(lack.refusal()),
        None => None,
    }
}

// The refusal of the first group that lacks something, up to the open one: one that was found before is told as it is.
#[tactic(auto, unfolding(crate::specs::Lacks::first_lack, meaning::specs::Answers::or_else))]
pub fn first_lack(settype: SetType, state: &State) -> Option<Refusal>
    ensures lack_so { told result ≡ first_lack settype state.now.header state.now.place state.now.members (told state.now.lack) }
    ensures numbered { has_number result }
    ensures by_missing { only_missing state.now.lack → only_missing result }
{
    match state.lack {
        Some(lack) if lack.no != 0 => Some(lack),
        _ => open_lack(settype, state),
    }
}

// What the set lacks at set level, lowest label first.
#[tactic(auto, unfolding(crate::specs::Lacks::set_lack, crate::specs::Lacks::lack_all, crate::specs::Lacks::seen, table_fields::specs::LabelNumbers::label_number, table_fields::specs::LabelNumbers::rows_before, meaning::specs::FieldTable::field_table))]
fn set_lack(settype: SetType, top: &[bool; ROWS]) -> Option<Lack>
    ensures { told_lack result ≡ set_lack settype top.now }
{
    match settype {
        SetType::T6300 | SetType::T6311 => first_unseen(top, &BASIC, 0),
        SetType::T6301 | SetType::T6302 => first_unseen(top, &PATIENT, 0),
        SetType::T6310 => first_unseen(top, &TEST, 0),
    }
}

// 16 after the last line: "set level before groups and pairs in order".
#[tactic(auto, unfolding(crate::specs::Lacks::finish, meaning::specs::Answers::or_else))]
pub fn finish_at(settype: SetType, state: &State) -> Option<Refusal>
    ensures lack_so { told result ≡ finish settype (flagged_of state.now) (told state.now.lack) }
    ensures numbered { has_number result }
    ensures by_missing { only_missing state.now.lack → only_missing result }
{
    match set_lack(settype, &state.top) {
        Some(lack) => Some(lack.refusal()),
        None => first_lack(settype, state),
    }
}

#[cfg(test)]
mod tests {
    use super::*;

    // The place of the 8410 line.
    const AT: usize = 40;

    // An 8410 group that has a value and no unit. Nothing was lacking before.
    fn group_without_a_unit() -> State
        ensures { only_missing result.lack }
    {
        let mut state = State::new();
        state.header = meaning::LABEL_8410;
        state.place = AT;
        mark(&mut state.members, fields::NO_8420);
        state
    }

    // Place and label of what is lacking, for a caller that knows 16 alone.
    fn lack_of(found: Option<Refusal>) -> Option<(usize, usize)>
        requires { only_missing found }
    {
        found.map(|r| (r.place, r.label))
    }

    #[test]
    fn a_group_lacks_its_unit(rt: HostRuntime) {
        let state = group_without_a_unit();
        assert_eq!(rt;
            lack_of(first_lack(SetType::T6310, &state)),
            Some((AT, 8421))
        );
        assert_eq!(rt;
            lack_of(first_lack(SetType::T6301, &state)),
            None,
            "only 6310 has groups"
        );
    }

    #[test]
    fn a_lack_found_before_is_told(rt: HostRuntime) {
        let mut state = group_without_a_unit();
        for (no, told) in [
            (16, (16, 7, 8437)),
            (14, (14, 7, 8437)),
            (0, (16, AT, 8421)),
        ] {
            state.lack = Some(Refusal {
                no,
                place: 7,
                label: 8437,
            });
            let found = first_lack(SetType::T6310, &state);
            assert_eq!(rt; found.map(|r| (r.no, r.place, r.label)), Some(told));
        }
    }

    #[test]
    fn the_set_level_comes_first(rt: HostRuntime) {
        let mut state = group_without_a_unit();
        assert_eq!(rt; lack_of(finish_at(SetType::T6310, &state)), Some((0, 3000)));
        state.top = [true; ROWS];
        assert_eq!(rt;
            lack_of(finish_at(SetType::T6310, &state)),
            Some((AT, 8421))
        );
        assert_eq!(rt; lack_of(finish_at(SetType::T6301, &state)), None);
    }
}
