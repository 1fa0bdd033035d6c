// The look-up of a label's row in the five set tables: by `match`, since it runs once a line.
// No function here asks anything of its caller; each says in its contract which definition it equals.
#![tactic(auto)]

ghost use Rattle.std.specs.Prelude.{◌≡◌, Some, None, cond};
ghost use Rattle.meaning.specs.Tables.{rows6300, rows6301, rows6302, rows6310, rows6311, table, is_pair_label, row_label};
ghost use Rattle.table_find.specs.LookUp.{find_from};
ghost use Rattle.table_find.specs.TableRows.{table_row};

use meaning::{FieldRow, SetType};
use table_fields as fields;

// What the tables say of a label: its number, its header's label (0 at set level), whether it repeats, and what its content must be.
#[derive(Clone, Copy)]
pub struct TableRow {
    pub number: usize,
    pub under: usize,
    pub many: bool,
    pub field: FieldRow,
}

// The header of a label that stands at set level.
pub const SET_LEVEL: usize = 0;

// Occurrence 1 and n.
const ONCE: bool = false;

const MANY: bool = true;

// The label is in the set's table, with this row.
fn at(number: usize, under: usize, many: bool, field: FieldRow) -> Option<TableRow>
    ensures { result ≡ Some (record { number = number; under = under; many = many; field = field }) }
{
    Some(TableRow {
        number,
        under,
        many,
        field,
    })
}

// A label's row in the table of 6300.
#[tactic(auto, unfolding(crate::specs::LookUp::find_from, crate::specs::TableRows::table_row, table_fields::specs::LabelNumbers::label_number, table_fields::specs::LabelNumbers::rows_before, meaning::specs::Tables::rows6300, meaning::specs::Tables::row_label, meaning::specs::FieldTable::field_table, meaning::specs::FieldTable::field_row_in))]
fn find_6300(label: usize) -> Option<TableRow>
    ensures { result ≡ table_row (find_from rows6300 (row_label label)) }
{
    match label {
        8000 => at(fields::NO_8000, SET_LEVEL, ONCE, fields::OF_8000),
        8100 => at(fields::NO_8100, SET_LEVEL, ONCE, fields::OF_8100),
        8315 => at(fields::NO_8315, SET_LEVEL, ONCE, fields::OF_8315),
        8316 => at(fields::NO_8316, SET_LEVEL, ONCE, fields::OF_8316),
        9206 => at(fields::NO_9206, SET_LEVEL, ONCE, fields::OF_9206),
        9218 => at(fields::NO_9218, SET_LEVEL, ONCE, fields::OF_9218),
        3000 => at(fields::NO_3000, SET_LEVEL, ONCE, fields::OF_3000),
        _ => None,
    }
}

// A label's row in the table of 6301.
#[tactic(auto, unfolding(crate::specs::LookUp::find_from, crate::specs::TableRows::table_row, table_fields::specs::LabelNumbers::label_number, table_fields::specs::LabelNumbers::rows_before, meaning::specs::Tables::rows6301, meaning::specs::Tables::row_label, meaning::specs::FieldTable::field_table, meaning::specs::FieldTable::field_row_in))]
fn find_6301(label: usize) -> Option<TableRow>
    ensures { result ≡ table_row (find_from rows6301 (row_label label)) }
{
    match label {
        8000 => at(fields::NO_8000, SET_LEVEL, ONCE, fields::OF_8000),
        8100 => at(fields::NO_8100, SET_LEVEL, ONCE, fields::OF_8100),
        8315 => at(fields::NO_8315, SET_LEVEL, ONCE, fields::OF_8315),
        8316 => at(fields::NO_8316, SET_LEVEL, ONCE, fields::OF_8316),
        9206 => at(fields::NO_9206, SET_LEVEL, ONCE, fields::OF_9206),
        9218 => at(fields::NO_9218, SET_LEVEL, ONCE, fields::OF_9218),
        3000 => at(fields::NO_3000, SET_LEVEL, ONCE, fields::OF_3000),
        3100 => at(fields::NO_3100, SET_LEVEL, ONCE, fields::OF_3100),
        3101 => at(fields::NO_3101, SET_LEVEL, ONCE, fields::OF_3101),
        3102 => at(fields::NO_3102, SET_LEVEL, ONCE, fields::OF_3102),
        3103 => at(fields::NO_3103, SET_LEVEL, ONCE, fields::OF_3103),
        3104 => at(fields::NO_3104, SET_LEVEL, ONCE, fields::OF_3104),
        3105 => at(fields::NO_3105, SET_LEVEL, ONCE, fields::OF_3105),
        3106 => at(fields::NO_3106, SET_LEVEL, ONCE, fields::OF_3106),
        3107 => at(fields::NO_3107, SET_LEVEL, ONCE, fields::OF_3107),
        3108 => at(fields::NO_3108, SET_LEVEL, ONCE, fields::OF_3108),
        3110 => at(fields::NO_3110, SET_LEVEL, ONCE, fields::OF_3110),
        3622 => at(fields::NO_3622, SET_LEVEL, ONCE, fields::OF_3622),
        3623 => at(fields::NO_3623, SET_LEVEL, ONCE, fields::OF_3623),
        3628 => at(fields::NO_3628, SET_LEVEL, ONCE, fields::OF_3628),
        _ => None,
    }
}

// A label's row in the table of 6302.
#[tactic(auto, unfolding(crate::specs::LookUp::find_from, crate::specs::TableRows::table_row, table_fields::specs::LabelNumbers::label_number, table_fields::specs::LabelNumbers::rows_before, meaning::specs::Tables::rows6302, meaning::specs::Tables::row_label, meaning::specs::FieldTable::field_table, meaning::specs::FieldTable::field_row_in))]
fn find_6302(label: usize) -> Option<TableRow>
    ensures { result ≡ table_row (find_from rows6302 (row_label label)) }
{
    match label {
        8000 => at(fields::NO_8000, SET_LEVEL, ONCE, fields::OF_8000),
        8100 => at(fields::NO_8100, SET_LEVEL, ONCE, fields::OF_8100),
        8315 => at(fields::NO_8315, SET_LEVEL, ONCE, fields::OF_8315),
        8316 => at(fields::NO_8316, SET_LEVEL, ONCE, fields::OF_8316),
        9206 => at(fields::NO_9206, SET_LEVEL, ONCE, fields::OF_9206),
        9218 => at(fields::NO_9218, SET_LEVEL, ONCE, fields::OF_9218),
        102 => at(fields::NO_102, SET_LEVEL, ONCE, fields::OF_102),
        103 => at(fields::NO_103, SET_LEVEL, ONCE, fields::OF_103),
        132 => at(fields::NO_132, SET_LEVEL, ONCE, fields::OF_132),
        3000 => at(fields::NO_3000, SET_LEVEL, ONCE, fields::OF_3000),
        3100 => at(fields::NO_3100, SET_LEVEL, ONCE, fields::OF_3100),
        3101 => at(fields::NO_3101, SET_LEVEL, ONCE, fields::OF_3101),
        3102 => at(fields::NO_3102, SET_LEVEL, ONCE, fields::OF_3102),
        3103 => at(fields::NO_3103, SET_LEVEL, ONCE, fields::OF_3103),
        3104 => at(fields::NO_3104, SET_LEVEL, ONCE, fields::OF_3104),
        3105 => at(fields::NO_3105, SET_LEVEL, ONCE, fields::OF_3105),
        3106 => at(fields::NO_3106, SET_LEVEL, ONCE, fields::OF_3106),
        3107 => at(fields::NO_3107, SET_LEVEL, ONCE, fields::OF_3107),
        3108 => at(fields::NO_3108, SET_LEVEL, ONCE, fields::OF_3108),
        3110 => at(fields::NO_3110, SET_LEVEL, ONCE, fields::OF_3110),
        3622 => at(fields::NO_3622, SET_LEVEL, ONCE, fields::OF_3622),
        3623 => at(fields::NO_3623, SET_LEVEL, ONCE, fields::OF_3623),
        3628 => at(fields::NO_3628, SET_LEVEL, ONCE, fields::OF_3628),
        8402 => at(fields::NO_8402, SET_LEVEL, ONCE, fields::OF_8402),
        8410 => at(fields::NO_8410, SET_LEVEL, ONCE, fields::OF_8410),
        _ => None,
    }
}

// The two rows of the pairs in the table of 6310: 6330 is printed for all names, 6331 for the odd labels after them.
fn find_pair(label: usize) -> Option<TableRow>
    ensures { result ≡ cond (is_pair_label label) (table_row (find_from rows6310 (row_label label))) None }
{
    if table_fields::is_pair(label) {
        if label % 2 == 0 {
            return at(fields::NO_6330, SET_LEVEL, MANY, fields::OF_6330);
        }
        return at(fields::NO_6331, 6330, ONCE, fields::OF_6331);
    }
    None
}

// A label's row in the table of 6310.
#[tactic(auto, unfolding(crate::specs::LookUp::find_from, crate::specs::TableRows::table_row, table_fields::specs::LabelNumbers::label_number, table_fields::specs::LabelNumbers::rows_before, meaning::specs::Tables::rows6310, meaning::specs::Tables::row_label, meaning::specs::FieldTable::field_table, meaning::specs::FieldTable::field_row_in))]
fn find_6310(label: usize) -> Option<TableRow>
    ensures { result ≡ table_row (find_from rows6310 (row_label label)) }
{
    match label {
        8000 => at(fields::NO_8000, SET_LEVEL, ONCE, fields::OF_8000),
        8100 => at(fields::NO_8100, SET_LEVEL, ONCE, fields::OF_8100),
        8315 => at(fields::NO_8315, SET_LEVEL, ONCE, fields::OF_8315),
        8316 => at(fields::NO_8316, SET_LEVEL, ONCE, fields::OF_8316),
        9206 => at(fields::NO_9206, SET_LEVEL, ONCE, fields::OF_9206),
        9218 => at(fields::NO_9218, SET_LEVEL, ONCE, fields::OF_9218),
        102 => at(fields::NO_102, SET_LEVEL, ONCE, fields::OF_102),
        103 => at(fields::NO_103, SET_LEVEL, ONCE, fields::OF_103),
        132 => at(fields::NO_132, SET_LEVEL, ONCE, fields::OF_132),
        3000 => at(fields::NO_3000, SET_LEVEL, ONCE, fields::OF_3000),
        3100 => at(fields::NO_3100, SET_LEVEL, ONCE, fields::OF_3100),
        3101 => at(fields::NO_3101, SET_LEVEL, ONCE, fields::OF_3101),
        3102 => at(fields::NO_3102, SET_LEVEL, ONCE, fields::OF_3102),
        3103 => at(fields::NO_3103, SET_LEVEL, ONCE, fields::OF_3103),
        3104 => at(fields::NO_3104, SET_LEVEL, ONCE, fields::OF_3104),
        3105 => at(fields::NO_3105, SET_LEVEL, ONCE, fields::OF_3105),
        3106 => at(fields::NO_3106, SET_LEVEL, ONCE, fields::OF_3106),
        3107 => at(fields::NO_3107, SET_LEVEL, ONCE, fields::OF_3107),
        3108 => at(fields::NO_3108, SET_LEVEL, ONCE, fields::OF_3108),
        3110 => at(fields::NO_3110, SET_LEVEL, ONCE, fields::OF_3110),
        3622 => at(fields::NO_3622, SET_LEVEL, ONCE, fields::OF_3622),
        3623 => at(fields::NO_3623, SET_LEVEL, ONCE, fields::OF_3623),
        3628 => at(fields::NO_3628, SET_LEVEL, ONCE, fields::OF_3628),
        8402 => at(fields::NO_8402, SET_LEVEL, ONCE, fields::OF_8402),
        6200 => at(fields::NO_6200, SET_LEVEL, ONCE, fields::OF_6200),
        6201 => at(fields::NO_6201, SET_LEVEL, ONCE, fields::OF_6201),
        6205 => at(fields::NO_6205, SET_LEVEL, MANY, fields::OF_6205),
        6220 => at(fields::NO_6220, SET_LEVEL, MANY, fields::OF_6220),
        6221 => at(fields::NO_6221, SET_LEVEL, MANY, fields::OF_6221),
        6227 => at(fields::NO_6227, SET_LEVEL, MANY, fields::OF_6227),
        6226 => at(fields::NO_6226, SET_LEVEL, MANY, fields::OF_6226),
        6228 => at(fields::NO_6228, SET_LEVEL, MANY, fields::OF_6228),
        6302 => at(fields::NO_6302, SET_LEVEL, MANY, fields::OF_6302),
        6303 => at(fields::NO_6303, 6302, ONCE, fields::OF_6303),
        6304 => at(fields::NO_6304, 6302, ONCE, fields::OF_6304),
        6305 => at(fields::NO_6305, 6302, ONCE, fields::OF_6305),
        8410 => at(fields::NO_8410, SET_LEVEL, MANY, fields::OF_8410),
        8411 => at(fields::NO_8411, 8410, ONCE, fields::OF_8411),
        8428 => at(fields::NO_8428, 8410, ONCE, fields::OF_8428),
        8429 => at(fields::NO_8429, 8410, ONCE, fields::OF_8429),
        8430 => at(fields::NO_8430, 8410, ONCE, fields::OF_8430),
        8431 => at(fields::NO_8431, 8410, MANY, fields::OF_8431),
        8437 => at(fields::NO_8437, 8410, ONCE, fields::OF_8437),
        8438 => at(fields::NO_8438, 8410, MANY, fields::OF_8438),
        8418 => at(fields::NO_8418, 8410, ONCE, fields::OF_8418),
        8420 => at(fields::NO_8420, 8410, ONCE, fields::OF_8420),
        8421 => at(fields::NO_8421, 8410, ONCE, fields::OF_8421),
        8432 => at(fields::NO_8432, 8410, ONCE, fields::OF_8432),
        8439 => at(fields::NO_8439, 8410, ONCE, fields::OF_8439),
        8460 => at(fields::NO_8460, 8410, ONCE, fields::OF_8460),
        8461 => at(fields::NO_8461, 8410, ONCE, fields::OF_8461),
        8462 => at(fields::NO_8462, 8410, ONCE, fields::OF_8462),
        8470 => at(fields::NO_8470, 8410, MANY, fields::OF_8470),
        8480 => at(fields::NO_8480, 8410, MANY, fields::OF_8480),
        8990 => at(fields::NO_8990, SET_LEVEL, ONCE, fields::OF_8990),
        _ => find_pair(label),
    }
}

// A label's row in the table of 6311.
#[tactic(auto, unfolding(crate::specs::LookUp::find_from, crate::specs::TableRows::table_row, table_fields::specs::LabelNumbers::label_number, table_fields::specs::LabelNumbers::rows_before, meaning::specs::Tables::rows6311, meaning::specs::Tables::row_label, meaning::specs::FieldTable::field_table, meaning::specs::FieldTable::field_row_in))]
fn find_6311(label: usize) -> Option<TableRow>
    ensures { result ≡ table_row (find_from rows6311 (row_label label)) }
{
    match label {
        8000 => at(fields::NO_8000, SET_LEVEL, ONCE, fields::OF_8000),
        8100 => at(fields::NO_8100, SET_LEVEL, ONCE, fields::OF_8100),
        8315 => at(fields::NO_8315, SET_LEVEL, ONCE, fields::OF_8315),
        8316 => at(fields::NO_8316, SET_LEVEL, ONCE, fields::OF_8316),
        9206 => at(fields::NO_9206, SET_LEVEL, ONCE, fields::OF_9206),
        9218 => at(fields::NO_9218, SET_LEVEL, ONCE, fields::OF_9218),
        3000 => at(fields::NO_3000, SET_LEVEL, ONCE, fields::OF_3000),
        3100 => at(fields::NO_3100, SET_LEVEL, ONCE, fields::OF_3100),
        3101 => at(fields::NO_3101, SET_LEVEL, ONCE, fields::OF_3101),
        3102 => at(fields::NO_3102, SET_LEVEL, ONCE, fields::OF_3102),
        3103 => at(fields::NO_3103, SET_LEVEL, ONCE, fields::OF_3103),
        3104 => at(fields::NO_3104, SET_LEVEL, ONCE, fields::OF_3104),
        6200 => at(fields::NO_6200, SET_LEVEL, ONCE, fields::OF_6200),
        6201 => at(fields::NO_6201, SET_LEVEL, ONCE, fields::OF_6201),
        8402 => at(fields::NO_8402, SET_LEVEL, ONCE, fields::OF_8402),
        8432 => at(fields::NO_8432, SET_LEVEL, ONCE, fields::OF_8432),
        8439 => at(fields::NO_8439, SET_LEVEL, ONCE, fields::OF_8439),
        _ => None,
    }
}

// A label's row in the table of a set type.
pub fn find_row(settype: SetType, label: usize) -> Option<TableRow>
    ensures { result ≡ table_row (find_from (table settype) (row_label label)) }
{
    match settype {
        SetType::T6300 => find_6300(label),
        SetType::T6301 => find_6301(label),
        SetType::T6302 => find_6302(label),
        SetType::T6310 => find_6310(label),
        SetType::T6311 => find_6311(label),
    }
}
