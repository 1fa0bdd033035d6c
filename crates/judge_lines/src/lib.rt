// The pass over the lines of a set that was read, of a known type: 11 to 15 of each line, then 16, then 24.
// Assumes of `pass` that all lines of the set were read, that line 1 names the type and that line 2 is an 8100 that no rule refuses: only other crates here call it, and they prove
// that. Each contract cites a walk of specs/; proofs/LineLoopLaws says what the loop stands for, proofs/PassLaws what the walks mean.
#![tactic(auto)]

ghost use Rattle.std.specs.Prelude.{◌≡◌, cond, ◌+◌, ◌≤◌, length, take};
ghost use Rattle.meaning.specs.Answers.{no_refusal};
ghost use Rattle.line_read.specs.Line.{line_content};
ghost use Rattle.judge_missing.specs.Lacks.{seen, finish_then, flagged_of, told};
ghost use Rattle.judge_line.specs.Steps.{row_of, Stepped};
ghost use Rattle.line_seven.specs.Seven.{high_in_set};
ghost use Rattle.judge_lines.specs.Pass.{Started, answered, pass_set};

use judge_missing::{ROWS, State};
use meaning::{Refusal, SetType};

// Line 1 and line 2, which every accepted set has.
pub const FIXED_LINES: usize = 2;

// The step of the line of `size` bytes at an offset.
fn line_step(
    s: &[u8],
    settype: SetType,
    state: &mut State,
    at: usize,
    label: usize,
    size: usize,
) -> Result<(), usize>
    requires { (10 ≤ size) × (at + size ≤ length s.now) }
    ensures { Stepped (row_of settype label) settype state.old at label (line_content s.now at size) result state.new }
{
    let from = at + meaning::LINE_LEAD;
    let end = at + size - meaning::LINE_END;
    judge_line::step_at(settype, state, at, label, s, from, end)
}

// 24, HighByte, of a set of this many bytes, if it has 9206: "place of the first such byte". The bytes before and after a content are never over 7Fh, so all bytes of the set are
// searched at once.
fn unless_high(s: &[u8], top: &[bool; ROWS], total: usize) -> Result<(), Refusal>
    requires { total ≤ length s.now }
    ensures { result ≡ answered (cond (seen top.now 9206) (high_in_set (take total s.now)) no_refusal) }
{
    if !judge_missing::has_9206(top) {
        return Ok(());
    }
    let high = line_seven::high_for(&s[..total], &s[..total]);
    if high < total {
        return Err(Refusal::at(Refusal::HIGH_BYTE, high));
    }
    Ok(())
}

// After the last line of a set of this many bytes: 16, then 24.
fn ended(s: &[u8], settype: SetType, state: &State, total: usize) -> Result<(), Refusal>
    requires { total ≤ length s.now }
    ensures { result ≡ answered (finish_then settype (flagged_of state.now) (told state.now.lack) (high_in_set (take total s.now))) }
{
    if let Some(lack) = judge_missing::finish_at(settype, state) {
        return Err(lack);
    }
    unless_high(s, &state.top, total)
}

// The lines of a set of this type: 11 to 15 of each, then 16 and 24. No rule refuses line 1, nor line 2, which stands at `second`, so the loop starts from the state that the two leave.
// A function of its own, so that the registers of the loop that reads the lines are not shared with it.
#[inline(never)]
pub fn pass(s: &[u8], settype: SetType, second: usize, lines: usize) -> Result<(), Refusal>
    requires { Started s.now settype second lines }
    ensures { result ≡ answered (pass_set s.now settype lines) }
{
    let mut state = State::new();
    judge_missing::mark(&mut state.top, judge_missing::NO_8000);
    judge_missing::mark(&mut state.top, judge_missing::NO_8100);
    state.header = meaning::LABEL_8100;
    state.place = second;
    let mut at = second + line_read::SUM_LINE;
    for _ in FIXED_LINES..lines {
        let size = line_read::size_at(s, at);
        let label = line_read::label_at(s, at);
        if let Err(no) = line_step(s, settype, &mut state, at, label, size) {
            return Err(Refusal {
                no,
                place: at,
                label,
            });
        }
        at += size;
    }
    ended(s, settype, &state, at)
}
