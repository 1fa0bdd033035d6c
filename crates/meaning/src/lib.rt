// The types that every crate shares: set types with the limits, refusals with their numbers, rows, index entries, answers.
// Each function here says in its contract which definition of specs/ it equals.
#![tactic(auto)]

ghost use Rattle.std.specs.Prelude.{◌≡◌};
ghost use Rattle.meaning.specs.Limits.{limits, type_of, type_number};
ghost use Rattle.meaning.specs.Refusals.{numbers, refusal, tells_byte};
ghost use Rattle.meaning.specs.Answers.{no_refusal};

// A byte has this many values.
pub const BYTE_VALUES: usize = 256;

// Digits are 30h to 39h: the first and the last.
pub const DIGIT_ZERO: u8 = b'0';

pub const DIGIT_NINE: u8 = b'9';

// ---- how a line and an entry are laid out

// "A line is three digits (its whole length), four digits (label), content, 0Dh 0Ah."
pub const LENGTH_DIGITS: usize = 3;

pub const LABEL_DIGITS: usize = 4;

pub const CR: u8 = 13;

pub const LF: u8 = 10;

// The bytes of a line before its content.
pub const LINE_LEAD: usize = LENGTH_DIGITS + LABEL_DIGITS;

// The bytes of a line after its content.
pub const LINE_END: usize = 2;

// "Length = content + 9."
pub const LINE_FRAME: usize = LINE_LEAD + LINE_END;

// The digits of a set type, the content of line 1.
pub const TYPE_DIGITS: usize = 4;

// "8100 has five digits", and its line this many bytes.
pub const SUM_DIGITS: usize = 5;

pub const SUM_LINE: usize = SUM_DIGITS + LINE_FRAME;

// These digits stand after line 1, whose content is the set's type, and after the lead of line 2.
pub const SUM_PLACE: usize = TYPE_DIGITS + LINE_FRAME + LINE_LEAD;

// "Content length in two bytes", label (in a sheet a line number) in two bytes.
pub const NUMBER_BYTES: usize = 2;

// The bytes of an entry before its content.
pub const ENTRY_LEAD: usize = NUMBER_BYTES + NUMBER_BYTES;

// A line has this many bytes more than the entry of the same field.
pub const LINE_OVER_ENTRY: usize = LINE_FRAME - ENTRY_LEAD;

// ---- the labels that a rule names

// Line 1 of a set, which names its type, and line 2, which has its length.
pub const LABEL_8000: usize = 8000;

pub const LABEL_8100: usize = 8100;

// The character set, and what it holds in a set of seven bits: "9206 with content 1".
pub const LABEL_9206: usize = 9206;

pub const SEVEN_BITS: u8 = DIGIT_ZERO + 1;

// The version.
pub const LABEL_9218: usize = 9218;

// Required in every set; in sets about a patient; in a set of a test's results.
pub const LABEL_3000: usize = 3000;

pub const LABEL_3101: usize = 3101;

pub const LABEL_3102: usize = 3102;

pub const LABEL_3103: usize = 3103;

pub const LABEL_8402: usize = 8402;

// A file that is added: the header of a group, and its three members.
pub const LABEL_6302: usize = 6302;

pub const LABEL_6303: usize = 6303;

pub const LABEL_6304: usize = 6304;

pub const LABEL_6305: usize = 6305;

// "Even labels 6330 to 6398 are names", the odd labels 6331 to 6399 their contents: the first of them all, and the last.
pub const LABEL_6330: usize = 6330;

pub const LABEL_6399: usize = 6399;

// A test: the header of a group, the two members that are required on a condition, and the last member.
pub const LABEL_8410: usize = 8410;

pub const LABEL_8421: usize = 8421;

pub const LABEL_8437: usize = 8437;

pub const LABEL_8480: usize = 8480;

// The five set types of GDT 2.1 that are read and written.
#[derive(Clone, Copy)]
pub enum SetType {
    T6300,
    T6301,
    T6302,
    T6310,
    T6311,
}

// The limits of a set as values, for specs/ to cite.
#[derive(Drop)]
pub struct Limits {
    pub lines: usize,
    pub line: usize,
    pub set: usize,
}

impl SetType {
    // A set has at most this many lines.
    pub const LINES: usize = 512;

    // A line has at most this many bytes, its end included.
    pub const LINE_BYTES: usize = 999;

    // A set that is written or corrected has at most this many bytes.
    pub const SET_BYTES: usize = 99_999;

    // Called by nobody: its proof says that the constants are those of specs/.
    pub fn limits() -> Limits
        ensures { result ≡ limits }
    {
        Limits {
            lines: SetType::LINES,
            line: SetType::LINE_BYTES,
            set: SetType::SET_BYTES,
        }
    }

    // The set type with this number, or none of the five.
    pub fn of(number: usize) -> Option<SetType>
        ensures { result ≡ type_of number }
    {
        match number {
            6300 => Some(SetType::T6300),
            6301 => Some(SetType::T6301),
            6302 => Some(SetType::T6302),
            6310 => Some(SetType::T6310),
            6311 => Some(SetType::T6311),
            _ => None,
        }
    }

    // Its number.
    pub fn number(self) -> usize
        ensures { result ≡ type_number self }
    {
        match self {
            SetType::T6300 => 6300,
            SetType::T6301 => 6301,
            SetType::T6302 => 6302,
            SetType::T6310 => 6310,
            SetType::T6311 => 6311,
        }
    }
}

// A refusal: its number, its place and its label. Every lent buffer then holds what it held before.
#[derive(Clone, Copy)]
pub struct Refusal {
    pub no: usize,
    pub place: usize,
    pub label: usize,
}

impl Refusal {
    pub const EMPTY: usize = 1;

    pub const BAD_LENGTH: usize = 2;

    pub const CUT_LINE: usize = 3;

    pub const BAD_END: usize = 4;

    pub const BAD_LABEL: usize = 5;

    pub const BAD_BYTE: usize = 6;

    pub const TOO_MANY_LINES: usize = 7;

    pub const NO_START: usize = 8;

    pub const UNKNOWN_SET: usize = 9;

    pub const NO_SUM: usize = 10;

    pub const NOT_IN_SET: usize = 11;

    pub const STRAY: usize = 12;

    pub const REPEATED: usize = 13;

    pub const BAD_CONTENT: usize = 14;

    pub const OTHER_VERSION: usize = 15;

    pub const MISSING: usize = 16;

    pub const BAD_SUM: usize = 17;

    pub const BAD_USE: usize = 18;

    pub const NO_SUCH_LINE: usize = 19;

    pub const FIXED_LINE: usize = 20;

    pub const BAD_LIST: usize = 21;

    pub const NO_ROOM: usize = 22;

    pub const TOO_MANY_SETS: usize = 23;

    pub const HIGH_BYTE: usize = 24;

    pub const BAD_BLOCK: usize = 25;

    pub const BAD_CRC: usize = 26;

    pub const NO_SUCH_CHARACTER: usize = 27;

    // Called by nobody: its proof says that the numbers are those of specs/, in the paper's order.
    pub fn numbers() -> [usize; 27]
        ensures { result ≡ numbers }
    {
        [
            Refusal::EMPTY,
            Refusal::BAD_LENGTH,
            Refusal::CUT_LINE,
            Refusal::BAD_END,
            Refusal::BAD_LABEL,
            Refusal::BAD_BYTE,
            Refusal::TOO_MANY_LINES,
            Refusal::NO_START,
            Refusal::UNKNOWN_SET,
            Refusal::NO_SUM,
            Refusal::NOT_IN_SET,
            Refusal::STRAY,
            Refusal::REPEATED,
            Refusal::BAD_CONTENT,
            Refusal::OTHER_VERSION,
            Refusal::MISSING,
            Refusal::BAD_SUM,
            Refusal::BAD_USE,
            Refusal::NO_SUCH_LINE,
            Refusal::FIXED_LINE,
            Refusal::BAD_LIST,
            Refusal::NO_ROOM,
            Refusal::TOO_MANY_SETS,
            Refusal::HIGH_BYTE,
            Refusal::BAD_BLOCK,
            Refusal::BAD_CRC,
            Refusal::NO_SUCH_CHARACTER,
        ]
    }

    // No refusal.
    pub fn none() -> Refusal
        ensures { result ≡ no_refusal }
    {
        Refusal::at(0, 0)
    }

    // A refusal that carries no label.
    pub fn at(no: usize, place: usize) -> Refusal
        ensures { result ≡ refusal no place 0 }
    {
        Refusal {
            no,
            place,
            label: 0,
        }
    }

    // Of what a correction or an entry of a sheet is refused by for its content, 6 and 24 are placed at a byte of it; 27 is given by recoding alone.
    #[tactic(auto, unfolding(crate::specs::Refusals::tells_byte))]
    pub fn tells_byte(no: usize) -> bool
        ensures { result ≡ tells_byte no }
    {
        matches!(no, Refusal::BAD_BYTE | Refusal::HIGH_BYTE)
    }
}

// A row of a set table: a label, its header's label (0 at set level), whether it repeats, whether it is required.
#[derive(Drop)]
pub struct Row {
    pub label: u16,
    pub under: u16,
    pub many: bool,
    pub required: bool,
}

// A content kind: which test a content must pass, beside its length.
#[derive(Clone, Copy)]
pub enum Kind {
    // Any content bytes.
    Alnum,
    // Digits only.
    Num,
    // A decimal number, with or without sign and point.
    Float,
    // 3103: a date whose day and month may be 00.
    Rule020,
    // A date.
    Rule008,
    // A time.
    Rule090,
    // 3110: 1 or 2.
    Rule112,
    // 3108: 1, 3 or 5.
    Rule116,
    // 9206: 1, 2 or 3.
    Charset,
    // 9218: two digits, point, two digits.
    Version,
}

// A row of the field table: a label, the least and the most bytes of its content, and the content's kind.
#[derive(Clone, Copy)]
pub struct FieldRow {
    pub label: usize,
    pub least: usize,
    pub most: usize,
    pub kind: Kind,
}

// What an accepted set is: its length in bytes, its lines, the number of its type.
#[derive(Clone, Copy)]
pub struct Shape {
    pub length: usize,
    pub lines: usize,
    pub settype: usize,
}

// A line of the index: its label, the place of its content, the content's length, and the number of its header's line or 0.
#[repr(C)]
#[derive(Drop)]
pub struct Entry {
    pub label: usize,
    pub place: usize,
    pub length: usize,
    pub header: usize,
}

// A part of a lent slice.
#[derive(Drop)]
pub struct Part {
    pub place: usize,
    pub length: usize,
}

// What a view shows: which slice holds the content, and where.
#[derive(Drop)]
pub enum Shown {
    // A pending correction: the part of the sheet.
    Sheet(Part),
    // No pending correction for the line: the part of the set.
    Set(Part),
}
