// What the calls of the C face answer: records of numbers by value, made of the answers of `meaning`; and what an index comes to before its first entry is written.
// They stay records of numbers, 0 where there is nothing, since C reads them.
// No function has a `requires`. The contracts cite specs/Replies, which gives the numbers of each answer, and specs/IndexPlans.
#![tactic(auto)]

ghost use Rattle.std.specs.Prelude.{◌≡◌, Ok};
ghost use Rattle.face_replies.specs.Replies.{judged_reply, made_reply, viewed_reply};
ghost use Rattle.face_replies.specs.IndexPlans.{plan_index};

use meaning::{Refusal, Shape, Shown};

// What judging a set answers: number 0 and the set's length, lines and type, or the refusal.
#[repr(C)]
#[derive(Clone, Copy)]
pub struct JudgedReply {
    pub no: usize,
    pub place: usize,
    pub label: usize,
    pub length: usize,
    pub lines: usize,
    pub settype: usize,
}

// What index, list, writer, correction and the calls of a day file answer: number 0 and how much was made, or the refusal.
#[repr(C)]
#[derive(Drop)]
pub struct MadeReply {
    pub no: usize,
    pub place: usize,
    pub label: usize,
    pub count: usize,
}

// What a view answers: number 0, the flag (1 if the part is the sheet's, 0 if it is the set's) and where the part stands; or the refusal.
#[repr(C)]
#[derive(Drop)]
pub struct ViewedReply {
    pub no: usize,
    pub place: usize,
    pub label: usize,
    pub flag: usize,
    pub at: usize,
    pub length: usize,
}

// The numbers of what judging a set answers.
impl From<Result<Shape, Refusal>> for JudgedReply {
    ghost from_gives = { λ judged reply. reply ≡ judged_reply judged };

    fn from(judged: Result<Shape, Refusal>) -> Self {
        match judged {
            Ok(shape) => JudgedReply {
                no: 0,
                place: 0,
                label: 0,
                length: shape.length,
                lines: shape.lines,
                settype: shape.settype,
            },
            Err(r) => JudgedReply {
                no: r.no,
                place: r.place,
                label: r.label,
                length: 0,
                lines: 0,
                settype: 0,
            },
        }
    }
}

// The numbers of what index, list, writer, correction or a call of a day file answers.
impl From<Result<usize, Refusal>> for MadeReply {
    ghost from_gives = { λ made reply. reply ≡ made_reply made };

    fn from(made: Result<usize, Refusal>) -> Self {
        match made {
            Ok(count) => MadeReply {
                no: 0,
                place: 0,
                label: 0,
                count,
            },
            Err(refusal) => MadeReply {
                no: refusal.no,
                place: refusal.place,
                label: refusal.label,
                count: 0,
            },
        }
    }
}

// The numbers of what a view shows.
impl From<Shown> for ViewedReply {
    ghost from_gives = { λ shown reply. reply ≡ viewed_reply (Ok shown) };

    fn from(shown: Shown) -> Self {
        match shown {
            Shown::Sheet(part) => ViewedReply {
                no: 0,
                place: 0,
                label: 0,
                flag: 1,
                at: part.place,
                length: part.length,
            },
            Shown::Set(part) => ViewedReply {
                no: 0,
                place: 0,
                label: 0,
                flag: 0,
                at: part.place,
                length: part.length,
            },
        }
    }
}

// The numbers of what a view answers.
impl From<Result<Shown, Refusal>> for ViewedReply {
    ghost from_gives = { λ viewed reply. reply ≡ viewed_reply viewed };

    fn from(viewed: Result<Shown, Refusal>) -> Self {
        match viewed {
            Ok(shown) => ViewedReply::from(shown),
            Err(r) => ViewedReply {
                no: r.no,
                place: r.place,
                label: r.label,
                flag: 0,
                at: 0,
                length: 0,
            },
        }
    }
}

// "Index and list refuse as the set does, then by 22": how many entries are written, one for each line of an accepted set, if there is room; of a refusal none.
pub fn plan_index(judged: Result<Shape, Refusal>, room: usize) -> Result<usize, Refusal>
    ensures { result ≡ plan_index judged room }
{
    let shape = judged?;
    if room < shape.lines {
        return Err(Refusal::at(Refusal::NO_ROOM, shape.lines));
    }
    Ok(shape.lines)
}
