// Where the content of the first line with a label stands, in a set whose lines were read before: they are passed over by the lengths that they say, and the label is compared byte by byte.
// `first_place` assumes nothing of the bytes. Each contract cites a walk of specs/FirstPlace, and proofs/FirstPlaceLaws says what it is for lines that were read.
#![tactic(auto)]

ghost use Rattle.std.specs.Prelude.{◌≡◌, ◌+◌, ◌%◌, ◌≤◌, length};
ghost use Rattle.meaning.specs.Digits.{digit_zero};
ghost use Rattle.meaning.specs.Lines.{line_lead};
ghost use Rattle.line_find.specs.FirstPlace.{label_stands, first_place};

use meaning::{LENGTH_DIGITS, SetType};

// The last digit of a number.
fn last_digit(n: usize) -> u8
    ensures { result ≡ digit_zero + n % 10 }
{
    (n % 10) as u8 + meaning::DIGIT_ZERO
}

// The line at an offset says this label: the last four digits of the number, of which most often the first one differs. With `==` of slices in its place building a day's index took 1.085 times what judging its sets takes, and 1.07 is the most.
fn label_stands(set: &[u8], at: usize, label: usize) -> bool
    requires { at + line_lead ≤ length set.now }
    ensures { result ≡ label_stands label set.now at }
{
    let tens = label / 10;
    let hundreds = tens / 10;
    let i = at + LENGTH_DIGITS;
    if set[i] != last_digit(hundreds / 10) {
        return false;
    }
    if set[i + 1] != last_digit(hundreds) {
        return false;
    }
    if set[i + 2] != last_digit(tens) {
        return false;
    }
    set[i + 3] == last_digit(label)
}

// The place of the content of the first line with this label, a number of at most four digits (of a larger one the last four count); 0 if no line has it.
pub fn first_place(set: &[u8], label: usize) -> usize
    ensures { (result ≡ first_place set.now label) × (result ≤ length set.now) }
{
    let mut at: usize = 0;
    for _ in 0..SetType::LINES {
        if !line_read::has_lead(set, at) {
            return 0;
        }
        if label_stands(set, at, label) {
            return at + meaning::LINE_LEAD;
        }
        at += line_read::told_length(set, at) + meaning::LINE_FRAME;
    }
    0
}
