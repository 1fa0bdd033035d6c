// "A view shows a content as it would stand": the answer, which slice holds it and where, and the part itself.
// `viewed` and `view` have no `requires`. The other functions are their parts; the contract of `shown_alone` cites a walk of specs/, and proofs/AloneLaws says
// what it means.
#![tactic(auto)]

ghost use Rattle.std.specs.Prelude.{◌≡◌, Err, Ok};
ghost use Rattle.meaning.specs.Refusals.{refusal};
ghost use Rattle.meaning.specs.Reading.{judge};
ghost use Rattle.meaning.specs.Views as Views;
ghost use Rattle.view.specs.Alone.{shown_alone};

use meaning::{Refusal, Shape, Shown};

// A refusal that concerns the set: "the label 0, unless said otherwise".
fn refused_view(no: usize, place: usize) -> Result<Shown, Refusal>
    ensures { result ≡ Err (refusal no place 0) }
{
    Err(Refusal::at(no, place))
}

// The set and its shape come as two values: with an `AcceptedSet` in their place a view of P took 0.972 of the second program's instructions, and 0.97 is the most.
// A view of an accepted set: "the set alone must fill its slice (18). Order: set, 18, the asked line (19), then each sheet entry".
fn shown_alone(set: &[u8], shape: Shape, sheet: &[u8], line: usize) -> Result<Shown, Refusal>
    requires { judge set.now ≡ Ok shape }
    ensures { result ≡ shown_alone set.now shape sheet.now line }
{
    // 18, BadUse: "another set follows (place: first set's length)"
    if shape.length < set.len() {
        return refused_view(Refusal::BAD_USE, shape.length);
    }
    // 19, NoSuchLine: "line number 0 or beyond the set; place: set length"
    if line < 1 {
        return refused_view(Refusal::NO_SUCH_LINE, shape.length);
    }
    if shape.lines < line {
        return refused_view(Refusal::NO_SUCH_LINE, shape.length);
    }
    view_sheet::shown_under(set, shape, sheet, line)
}

// What a view of a line shows, given the set and a sheet of pending corrections.
pub fn viewed(set: &[u8], sheet: &[u8], line: usize) -> Result<Shown, Refusal>
    ensures { result ≡ Views.viewed set.now sheet.now line }
{
    // Lent anew: a slice that is handed on as it came is copied in one piece just after it was made of two, and the processor waits for that.
    let shape = judge::judge(&set[..])?;
    shown_alone(set, shape, sheet, line)
}

// The part itself; "a refusal comes with an empty part of the set". It judges the set itself, as `viewed` does: so `shown_alone`, which needs a large frame, stays a function of its own, and
// a set that is refused does not pay for it.
pub fn view<'a>(set: &'a [u8], sheet: &'a [u8], line: usize) -> &'a [u8]
    ensures { result.now ≡ Views.view set.now sheet.now line }
{
    match judge::judge(set) {
        Err(_) => &set[0..0],
        Ok(shape) => { view_part::shown_bytes(set, sheet, shown_alone(set, shape, sheet, line)) }
    }
}
