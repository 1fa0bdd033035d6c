// The start of a set: the set type that line 1 names, for 9, and the sum that line 2 writes, for 14 and 17.
// Assumes nothing of a content; `sum_of`, which only other crates here call, assumes that line 2 starts within the bytes. proofs/TypeAndSumLaws says what each `return` has to show.
#![tactic(auto)]

ghost use Rattle.std.specs.Prelude.{◌≡◌, ◌≤◌, length};
ghost use Rattle.meaning.specs.Rules.{type_named};
ghost use Rattle.judge_start.specs.Sum.{sum_written};

use meaning::SetType;

// The set type that a content of 8000 names.
pub fn type_of(content: &[u8]) -> Option<SetType>
    ensures { result ≡ type_named content.now }
{
    if content.len() != meaning::TYPE_DIGITS {
        return None;
    }
    match line_read::number_at(content, 0, meaning::TYPE_DIGITS) {
        Some(number) => SetType::of(number),
        None => None,
    }
}

// The sum that line 2 writes, which stands at an offset and has this many bytes: five digits, else 14 refuses it.
pub fn sum_of(s: &[u8], at: usize, size: usize) -> Option<usize>
    requires { at ≤ length s.now }
    ensures { result ≡ sum_written s.now at size }
{
    if size != line_read::SUM_LINE {
        return None;
    }
    line_read::number_at(s, at + meaning::LINE_LEAD, meaning::SUM_DIGITS)
}
