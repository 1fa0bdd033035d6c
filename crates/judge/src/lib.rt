// `judge`: what a set at the front of some bytes is, or its first refusal, 1 to 17 and 24, in the paper's order: all lines are read, then line 1, line 2, the rules, the sum.
// `judge` has no `requires`. `ruled` is its part; each contract cites a walk of specs/, and proofs/JudgeLaws says what the walks mean.
#![tactic(auto)]

ghost use Rattle.std.specs.Prelude.{◌≡◌, Err};
ghost use Rattle.meaning.specs.Refusals.{refusal, bad_content};
ghost use Rattle.meaning.specs.Reading as Reading;
ghost use Rattle.line_read.specs.Line.{line_at, a_line};
ghost use Rattle.line_scan.specs.Scan.{scan_set, scanned};
ghost use Rattle.judge.specs.Walks.{first_by};

use meaning::{Refusal, Shape};

// 14, BadContent, of line 2, which stands at an offset.
fn unsummed(at: usize) -> Result<Shape, Refusal>
    ensures { result ≡ Err (refusal bad_content at 8100) }
{
    Err(Refusal {
        no: Refusal::BAD_CONTENT,
        place: at,
        label: meaning::LABEL_8100,
    })
}

// 8 to 17 and 24 of a set of this many bytes and lines, all of which were read: line 1 has this label and ends at `at`. Line 2 is the first line that 14 may refuse, so its sum is read before
// the others are judged. All these tests stand in one function with the call of the pass: so the compiler keeps the pass, a large loop, a function of its own.
fn ruled(s: &[u8], label: usize, at: usize, length: usize, lines: usize) -> Result<Shape, Refusal>
    requires { (line_at s.now 0 ≡ a_line label at) × (scan_set s.now ≡ scanned length lines) }
    ensures { result ≡ first_by s.now label at length lines }
{
    if label != meaning::LABEL_8000 {
        return Err(Refusal::at(Refusal::NO_START, 0));
    }
    let end = at - meaning::LINE_END;
    let known = judge_start::type_of(&s[meaning::LINE_LEAD..end]);
    let Some(settype) = known else {
        return Err(Refusal::at(Refusal::UNKNOWN_SET, 0));
    };
    let no_sum = Refusal::at(Refusal::NO_SUM, at);
    if lines < judge_lines::FIXED_LINES {
        return Err(no_sum);
    }
    if line_read::label_at(s, at) != meaning::LABEL_8100 {
        return Err(no_sum);
    }
    let size = line_read::size_at(s, at);
    let written = judge_start::sum_of(s, at, size);
    let Some(sum) = written else {
        return unsummed(at);
    };
    if let Err(r) = judge_lines::pass(s, settype, at, lines) {
        return Err(r);
    }
    if sum != length {
        return Err(Refusal::at(Refusal::BAD_SUM, at));
    }
    Ok(Shape {
        length,
        lines,
        settype: settype.number(),
    })
}

// The set at the front of some bytes: accepted with its length, its lines and its type, or its first refusal in the paper's order.
pub fn judge(set: &[u8]) -> Result<Shape, Refusal>
    ensures { result ≡ Reading.judge set.now }
{
    if set.len() == 0 {
        return Err(Refusal::at(Refusal::EMPTY, 0));
    }
    let first = line_read::line_at(set, 0)?;
    let scan = line_scan::scan_from(set, first.size, 1)?;
    ruled(set, first.label, first.size, scan.length, scan.lines)
}
