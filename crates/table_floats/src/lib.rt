// The test of a decimal number.
// No function here asks anything of its caller; each says in its contract which definition of the meaning it equals.
#![tactic(auto)]

ghost use Rattle.std.specs.Prelude.{◌≡◌, drop};
ghost use Rattle.meaning.specs.Kinds.{decimals, whole, unsigned, is_float};

// The sign of a number under 0.
const MINUS: u8 = b'-';

// From `from` on stand one or more digits, then nothing.
fn decimals_from(c: &[u8], from: usize) -> bool
    ensures { result ≡ decimals (drop from c.now) }
{
    if from < c.len() {
        return byte_digits::all_digits(c, from);
    }
    false
}

// From `from` on stand digits, then nothing, or a point and one or more digits.
fn whole_from(c: &[u8], from: usize) -> bool
    ensures { result ≡ whole (drop from c.now) }
{
    for i in from..c.len() {
        if !byte_digits::is_digit(c[i]) {
            return c[i] == byte_digits::POINT && decimals_from(c, i + 1);
        }
    }
    true
}

// From `from` on stand one or more digits, then nothing, or a point and one or more digits.
fn unsigned_from(c: &[u8], from: usize) -> bool
    ensures { result ≡ unsigned (drop from c.now) }
{
    if c.len() <= from {
        return false;
    }
    if byte_digits::is_digit(c[from]) {
        return whole_from(c, from + 1);
    }
    false
}

// "float: optional `-`, one or more digits, optionally `.` and one or more digits."
pub fn is_float(c: &[u8]) -> bool
    ensures { result ≡ is_float c.now }
{
    if byte_digits::byte_at(c, 0) == MINUS {
        return unsigned_from(c, 1);
    }
    unsigned_from(c, 0)
}
