// The field table: what the content of each label must be, row by row, and the row of a label.
// No function here asks anything of its caller; each says in its contract which definition it equals.
#![tactic(auto)]

ghost use Rattle.std.specs.Prelude.{◌≡◌};
ghost use Rattle.meaning.specs.Tables.{is_pair_label, row_label};
ghost use Rattle.meaning.specs.FieldTable.{field_table, field_row_in, field_row};

use meaning::{FieldRow, Kind};

// ---- what a row is written with

// "8" means exactly.
macro_rules! exactly {
    ($label:expr, $length:expr, $kind:expr) => {
        FieldRow { label: $label, least: $length, most: $length, kind: $kind }
    };
}

// "<=60" means 1 to 60.
macro_rules! up_to {
    ($label:expr, $most:expr, $kind:expr) => {
        FieldRow { label: $label, least: 1, most: $most, kind: $kind }
    };
}

// "var" is taken as 1 to 60.
macro_rules! var {
    ($label:expr, $kind:expr) => {
        up_to!($label, 60, $kind)
    };
}

// ---- the rows, in the printed order

pub const OF_102: FieldRow = up_to!(102, 60, Kind::Alnum);

pub const OF_103: FieldRow = up_to!(103, 60, Kind::Alnum);

pub const OF_132: FieldRow = up_to!(132, 60, Kind::Alnum);

pub const OF_3000: FieldRow = up_to!(3000, 10, Kind::Alnum);

pub const OF_3100: FieldRow = up_to!(3100, 15, Kind::Alnum);

pub const OF_3101: FieldRow = up_to!(3101, 28, Kind::Alnum);

pub const OF_3102: FieldRow = up_to!(3102, 28, Kind::Alnum);

pub const OF_3103: FieldRow = exactly!(3103, 8, Kind::Rule020);

pub const OF_3104: FieldRow = up_to!(3104, 15, Kind::Alnum);

pub const OF_3105: FieldRow = up_to!(3105, 12, Kind::Alnum);

pub const OF_3106: FieldRow = up_to!(3106, 30, Kind::Alnum);

pub const OF_3107: FieldRow = up_to!(3107, 28, Kind::Alnum);

pub const OF_3108: FieldRow = exactly!(3108, 1, Kind::Rule116);

pub const OF_3110: FieldRow = exactly!(3110, 1, Kind::Rule112);

pub const OF_3622: FieldRow = var!(3622, Kind::Float);

pub const OF_3623: FieldRow = var!(3623, Kind::Float);

pub const OF_3628: FieldRow = up_to!(3628, 60, Kind::Alnum);

pub const OF_6200: FieldRow = exactly!(6200, 8, Kind::Rule008);

pub const OF_6201: FieldRow = exactly!(6201, 6, Kind::Rule090);

pub const OF_6205: FieldRow = up_to!(6205, 60, Kind::Alnum);

pub const OF_6220: FieldRow = up_to!(6220, 60, Kind::Alnum);

pub const OF_6221: FieldRow = up_to!(6221, 60, Kind::Alnum);

pub const OF_6226: FieldRow = up_to!(6226, 4, Kind::Num);

pub const OF_6227: FieldRow = up_to!(6227, 60, Kind::Alnum);

pub const OF_6228: FieldRow = up_to!(6228, 60, Kind::Alnum);

pub const OF_6302: FieldRow = up_to!(6302, 60, Kind::Alnum);

pub const OF_6303: FieldRow = up_to!(6303, 60, Kind::Alnum);

pub const OF_6304: FieldRow = up_to!(6304, 60, Kind::Alnum);

pub const OF_6305: FieldRow = up_to!(6305, 60, Kind::Alnum);

pub const OF_6330: FieldRow = up_to!(6330, 60, Kind::Alnum);

pub const OF_6331: FieldRow = up_to!(6331, 60, Kind::Alnum);

pub const OF_8000: FieldRow = exactly!(8000, 4, Kind::Alnum);

pub const OF_8100: FieldRow = exactly!(8100, 5, Kind::Num);

pub const OF_8315: FieldRow = exactly!(8315, 8, Kind::Alnum);

pub const OF_8316: FieldRow = exactly!(8316, 8, Kind::Alnum);

pub const OF_8402: FieldRow = up_to!(8402, 6, Kind::Alnum);

pub const OF_8410: FieldRow = up_to!(8410, 20, Kind::Alnum);

pub const OF_8411: FieldRow = up_to!(8411, 60, Kind::Alnum);

pub const OF_8418: FieldRow = exactly!(8418, 1, Kind::Alnum);

pub const OF_8420: FieldRow = var!(8420, Kind::Float);

pub const OF_8421: FieldRow = up_to!(8421, 60, Kind::Alnum);

pub const OF_8428: FieldRow = up_to!(8428, 8, Kind::Alnum);

pub const OF_8429: FieldRow = exactly!(8429, 2, Kind::Num);

pub const OF_8430: FieldRow = up_to!(8430, 60, Kind::Alnum);

pub const OF_8431: FieldRow = up_to!(8431, 60, Kind::Alnum);

pub const OF_8432: FieldRow = exactly!(8432, 8, Kind::Rule008);

pub const OF_8437: FieldRow = up_to!(8437, 60, Kind::Alnum);

pub const OF_8438: FieldRow = up_to!(8438, 60, Kind::Alnum);

pub const OF_8439: FieldRow = exactly!(8439, 6, Kind::Rule090);

pub const OF_8460: FieldRow = up_to!(8460, 60, Kind::Alnum);

pub const OF_8461: FieldRow = var!(8461, Kind::Float);

pub const OF_8462: FieldRow = var!(8462, Kind::Float);

pub const OF_8470: FieldRow = up_to!(8470, 60, Kind::Alnum);

pub const OF_8480: FieldRow = up_to!(8480, 60, Kind::Alnum);

pub const OF_8990: FieldRow = up_to!(8990, 60, Kind::Alnum);

pub const OF_9206: FieldRow = exactly!(9206, 1, Kind::Charset);

pub const OF_9218: FieldRow = exactly!(9218, 5, Kind::Version);

// No length fits a label that has no row.
const OF_NONE: FieldRow = up_to!(0, 0, Kind::Alnum);

// ---- the number of a label: how many rows stand before its own

pub const NO_102: usize = 0;

pub const NO_103: usize = 1;

pub const NO_132: usize = 2;

pub const NO_3000: usize = 3;

pub const NO_3100: usize = 4;

pub const NO_3101: usize = 5;

pub const NO_3102: usize = 6;

pub const NO_3103: usize = 7;

pub const NO_3104: usize = 8;

pub const NO_3105: usize = 9;

pub const NO_3106: usize = 10;

pub const NO_3107: usize = 11;

pub const NO_3108: usize = 12;

pub const NO_3110: usize = 13;

pub const NO_3622: usize = 14;

pub const NO_3623: usize = 15;

pub const NO_3628: usize = 16;

pub const NO_6200: usize = 17;

pub const NO_6201: usize = 18;

pub const NO_6205: usize = 19;

pub const NO_6220: usize = 20;

pub const NO_6221: usize = 21;

pub const NO_6226: usize = 22;

pub const NO_6227: usize = 23;

pub const NO_6228: usize = 24;

pub const NO_6302: usize = 25;

pub const NO_6303: usize = 26;

pub const NO_6304: usize = 27;

pub const NO_6305: usize = 28;

pub const NO_6330: usize = 29;

pub const NO_6331: usize = 30;

pub const NO_8000: usize = 31;

pub const NO_8100: usize = 32;

pub const NO_8315: usize = 33;

pub const NO_8316: usize = 34;

pub const NO_8402: usize = 35;

pub const NO_8410: usize = 36;

pub const NO_8411: usize = 37;

pub const NO_8418: usize = 38;

pub const NO_8420: usize = 39;

pub const NO_8421: usize = 40;

pub const NO_8428: usize = 41;

pub const NO_8429: usize = 42;

pub const NO_8430: usize = 43;

pub const NO_8431: usize = 44;

pub const NO_8432: usize = 45;

pub const NO_8437: usize = 46;

pub const NO_8438: usize = 47;

pub const NO_8439: usize = 48;

pub const NO_8460: usize = 49;

pub const NO_8461: usize = 50;

pub const NO_8462: usize = 51;

pub const NO_8470: usize = 52;

pub const NO_8480: usize = 53;

pub const NO_8990: usize = 54;

pub const NO_9206: usize = 55;

pub const NO_9218: usize = 56;

// A name, or the odd label after one.
pub fn is_pair(label: usize) -> bool
    ensures { result ≡ is_pair_label label }
{
    if label < meaning::LABEL_6330 {
        return false;
    }
    label <= meaning::LABEL_6399
}

// The label that a label's row is printed under: 6330 for the names, 6331 for the odd labels after them.
pub fn row_label(label: usize) -> usize
    ensures { result ≡ row_label label }
{
    if is_pair(label) {
        return meaning::LABEL_6330 + label % 2;
    }
    label
}

// The row that is printed under a label.
#[tactic(auto, unfolding(meaning::specs::FieldTable::field_row_in, meaning::specs::FieldTable::field_table))]
fn printed_row(want: usize) -> FieldRow
    ensures { result ≡ field_row_in field_table want }
{
    match want {
        102 => OF_102,
        103 => OF_103,
        132 => OF_132,
        3000 => OF_3000,
        3100 => OF_3100,
        3101 => OF_3101,
        3102 => OF_3102,
        3103 => OF_3103,
        3104 => OF_3104,
        3105 => OF_3105,
        3106 => OF_3106,
        3107 => OF_3107,
        3108 => OF_3108,
        3110 => OF_3110,
        3622 => OF_3622,
        3623 => OF_3623,
        3628 => OF_3628,
        6200 => OF_6200,
        6201 => OF_6201,
        6205 => OF_6205,
        6220 => OF_6220,
        6221 => OF_6221,
        6226 => OF_6226,
        6227 => OF_6227,
        6228 => OF_6228,
        6302 => OF_6302,
        6303 => OF_6303,
        6304 => OF_6304,
        6305 => OF_6305,
        6330 => OF_6330,
        6331 => OF_6331,
        8000 => OF_8000,
        8100 => OF_8100,
        8315 => OF_8315,
        8316 => OF_8316,
        8402 => OF_8402,
        8410 => OF_8410,
        8411 => OF_8411,
        8418 => OF_8418,
        8420 => OF_8420,
        8421 => OF_8421,
        8428 => OF_8428,
        8429 => OF_8429,
        8430 => OF_8430,
        8431 => OF_8431,
        8432 => OF_8432,
        8437 => OF_8437,
        8438 => OF_8438,
        8439 => OF_8439,
        8460 => OF_8460,
        8461 => OF_8461,
        8462 => OF_8462,
        8470 => OF_8470,
        8480 => OF_8480,
        8990 => OF_8990,
        9206 => OF_9206,
        9218 => OF_9218,
        _ => OF_NONE,
    }
}

// A label's row.
pub fn field_row(label: usize) -> FieldRow
    ensures { result ≡ field_row label }
{
    printed_row(row_label(label))
}
