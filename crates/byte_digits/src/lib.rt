// The bytes of a content as digits: one byte, all from an offset on, and the number that two of them write.
// No function here asks anything of its caller; each says in its contract which definition of the meaning it equals.
#![tactic(auto)]

ghost use Rattle.std.specs.Prelude.{◌≡◌, [], ◌∷◌, drop, get_or};
ghost use Rattle.meaning.specs.Digits.{digit, all_digits};
ghost use Rattle.meaning.specs.Kinds.{two_at};

// The point in a number and in a version.
pub const POINT: u8 = b'.';

// Byte i of a content, 0 after its end.
pub fn byte_at(c: &[u8], i: usize) -> u8
    ensures { result ≡ get_or c.now i 0 }
{
    if c.len() <= i {
        return 0;
    }
    c[i]
}

// Digits are 30h to 39h.
pub fn is_digit(b: u8) -> bool
    ensures { result ≡ digit b }
{
    b.is_ascii_digit()
}

// The bytes from `from` on are digits.
pub fn all_digits(c: &[u8], from: usize) -> bool
    ensures { result ≡ all_digits (drop from c.now) }
{
    if c.len() <= from {
        return true;
    }
    c[from..].iter().all(|b| is_digit(*b))
}

// What two bytes that are not both digits count as: over every bound that is asked of two digits.
const NO_NUMBER: u8 = 100;

// The number that two bytes write, if they are digits.
fn two_digits(a: u8, b: u8) -> u8
    ensures { result ≡ two_at (a ∷ b ∷ []) 0 }
{
    if is_digit(a) {
        if is_digit(b) {
            return (a - meaning::DIGIT_ZERO) * 10 + (b - meaning::DIGIT_ZERO);
        }
        return NO_NUMBER;
    }
    NO_NUMBER
}

// The number that bytes i and i + 1 write, if they are two digits.
pub fn two_at(c: &[u8], i: usize) -> u8
    ensures { result ≡ two_at c.now i }
{
    if c.len() <= i {
        return NO_NUMBER;
    }
    two_digits(c[i], byte_at(c, i + 1))
}
