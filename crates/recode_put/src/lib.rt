// A set in its buffer recoded: every byte becomes its entry in the table, then 9206 names the wanted code page, in its place or in a line that is gained, with the sum brought up to
// date. "Bytes behind the set become zero."
// Assumes of each call that the set lies in the buffer, and what is put in its bytes too, and that `plain` of its bytes are in front of the first one over 7Fh: only another crate here
// calls it, and proves that. Each contract says what every byte of the buffer is afterwards.
#![tactic(auto)]

ghost use Rattle.std.specs.Prelude.{◌≡◌, [], ◌+◌, ◌≤◌, ◌<◌, length, get_or, take};
ghost use Rattle.meaning.specs.Field.{field};
ghost use Rattle.meaning.specs.Lines.{line_then};
ghost use Rattle.meaning_recode.specs.Recoding.{charset_of};
ghost use Rattle.byte_high.specs.High.{plain_front};
ghost use Rattle.recode_bytes.specs.Mapped.{CodeTable};
ghost use Rattle.recode_put.specs.Recoded.{line_three, gained_bytes, zeroed_after, remarked, mapped_front, with_line};

use meaning_recode::Code;
use recode_plan::GAINED;

// "Gains that line as line 3": after line 1, whose content is the set's type, and line 2, the sum.
const LINE_3: usize = meaning::TYPE_DIGITS + meaning::LINE_FRAME + meaning::SUM_LINE;

// "A set already in the wanted code stays as it is."
pub fn put_nothing(buffer: &mut [u8], used: usize)
    requires { used ≤ length buffer.old }
    ensures { buffer.new ≡ zeroed_after used buffer.old }
{
    byte_put::clear(&mut buffer[used..]);
}

// "Sets with 9206 = 1 only change that content": it is one byte, at this place.
pub fn put_mark(buffer: &mut [u8], used: usize, place: usize, wanted: Code)
    requires { (place < used) × (used ≤ length buffer.old) }
    ensures { buffer.new ≡ zeroed_after used (remarked place wanted buffer.old) }
{
    buffer[place] = recode_table::mark_of(wanted);
    put_nothing(buffer, used);
}

// Every content, then that of 9206, at this place.
pub fn put_recoded(
    buffer: &mut [u8],
    used: usize,
    plain: usize,
    place: usize,
    wanted: Code,
    table: &[u16; 256],
)
    requires { (place < used) × (used ≤ length buffer.old) × (plain ≡ plain_front (take used buffer.old)) × CodeTable table.now }
    ensures { buffer.new ≡ zeroed_after used (remarked place wanted (mapped_front table.now used buffer.old)) }
{
    recode_bytes::map_bytes(&mut buffer[..used], plain, table);
    put_mark(buffer, used, place, wanted);
}

// The line of 9206: its length, its label, the byte that names the wanted code page, and its end.
fn charset_line(wanted: Code) -> [u8; GAINED]
    ensures { result ≡ line_then (field 9206 (charset_of wanted)) [] }
{
    match wanted {
        Code::Page437 => *b"01092062\r\n",
        Code::Page1252 => *b"01092063\r\n",
    }
}

// Every content, then "gains that line as line 3", and the sum.
pub fn put_gained(buffer: &mut [u8], used: usize, plain: usize, wanted: Code, table: &[u16; 256])
    requires { (line_three ≤ used) × (used + gained_bytes ≤ length buffer.old) × (plain ≡ plain_front (take used buffer.old)) × CodeTable table.now }
    ensures { buffer.new ≡ with_line wanted used (mapped_front table.now used buffer.old) }
{
    let line = charset_line(wanted);
    recode_bytes::map_bytes(&mut buffer[..used], plain, table);
    correct_put::replace_middle(buffer, LINE_3, 0, &line, used);
    byte_put::put_digits(
        buffer,
        meaning::SUM_PLACE,
        meaning::SUM_DIGITS,
        used + GAINED,
    );
}
