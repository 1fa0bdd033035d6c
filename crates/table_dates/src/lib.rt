// The tests of a date and of a time.
// No function here asks anything of its caller; each says in its contract which definition of the meaning it equals.
#![tactic(auto)]

ghost use Rattle.std.specs.Prelude.{◌≡◌};
ghost use Rattle.meaning.specs.Kinds.{is_rule020, is_rule008, is_rule090};

// "Rule 020 (3103): DDMMYYYY, DD 00 to 31, MM 00 to 12."
#[tactic(auto, unfolding(meaning::specs::Kinds::is_rule020))]
pub fn is_rule020(c: &[u8]) -> bool
    ensures { result ≡ is_rule020 c.now }
{
    byte_digits::two_at(c, 0) <= 31
        && byte_digits::two_at(c, 2) <= 12
        && byte_digits::all_digits(c, 4)
}

// "Rule 008: DD 01 to 31, MM 01 to 12, months not counted out."
#[tactic(auto, unfolding(meaning::specs::Kinds::is_rule008))]
pub fn is_rule008(c: &[u8]) -> bool
    ensures { result ≡ is_rule008 c.now }
{
    1 <= byte_digits::two_at(c, 0) && 1 <= byte_digits::two_at(c, 2) && is_rule020(c)
}

// "Rule 090: HHMMSS, HH 00 to 24, MM and SS 00 to 59."
#[tactic(auto, unfolding(meaning::specs::Kinds::is_rule090))]
pub fn is_rule090(c: &[u8]) -> bool
    ensures { result ≡ is_rule090 c.now }
{
    byte_digits::two_at(c, 0) <= 24
        && byte_digits::two_at(c, 2) <= 59
        && byte_digits::two_at(c, 4) <= 59
}
