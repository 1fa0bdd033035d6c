// The table of recoding into a code page, and what 9206 holds then.
// Assumes nothing. The contracts cite the definitions.
#![tactic(auto)]

ghost use Rattle.std.specs.Prelude.{◌≡◌, get_or};
ghost use Rattle.meaning_recode.specs.Codes.{table_into};
ghost use Rattle.meaning_recode.specs.Recoding.{charset_of};

mod tables;

use meaning_recode::Code;

// What stands in a table if the other code page has no such character: no byte.
pub const NO_BYTE: u16 = 256;

// The table into the wanted code page.
pub fn table_into(wanted: Code) -> &'static [u16; 256]
    ensures { result.now ≡ table_into wanted }
{
    match wanted {
        Code::Page437 => &tables::TO_437,
        Code::Page1252 => &tables::TO_1252,
    }
}

// The one byte that 9206 holds if the set is in the wanted code page: "9206 = 3" is code page 1252, and 2 is 437.
pub fn mark_of(wanted: Code) -> u8
    ensures { result ≡ get_or (charset_of wanted) 0 0 }
{
    match wanted {
        Code::Page437 => b'2',
        Code::Page1252 => b'3',
    }
}
