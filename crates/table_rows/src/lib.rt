// The five set tables as arrays of rows by value, in the printed order: "The five set tables are rows of small fixed arrays, one per set type."
// No function of the library calls these. They are here to be read: a reader may hold each row against the documents, and each array is proved to be its table in
// specs/ of `meaning`. The program finds a line's row by the `match` of crate `table_find`, which is proved equal to a search of the same rows.
// No function here asks anything of its caller.
#![tactic(auto)]

ghost use Rattle.std.specs.Prelude.{◌≡◌};
ghost use Rattle.meaning.specs.Tables.{rows6300, rows6301, rows6302, rows6310, rows6311};

use meaning::Row;

mod rows;

// The table of 6300.
pub fn rows_6300() -> [Row; 7]
    ensures { result ≡ rows6300 }
{
    rows::ROWS_6300
}

// The table of 6301.
pub fn rows_6301() -> [Row; 20]
    ensures { result ≡ rows6301 }
{
    rows::ROWS_6301
}

// The table of 6302.
pub fn rows_6302() -> [Row; 25]
    ensures { result ≡ rows6302 }
{
    rows::ROWS_6302
}

// The table of 6310.
pub fn rows_6310() -> [Row; 57]
    ensures { result ≡ rows6310 }
{
    rows::ROWS_6310
}

// The table of 6311.
pub fn rows_6311() -> [Row; 17]
    ensures { result ≡ rows6311 }
{
    rows::ROWS_6311
}
