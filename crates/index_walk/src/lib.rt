// A walk over the lines of an accepted set that gives its index entry after entry, by value: nothing is kept but three numbers, and no table is looked up.
// No function has a `requires`. Contracts cite specs/Walking, and `entries-are` in proofs/EntryWalk says what the walk of an accepted set gives.
#![tactic(auto)]

ghost use Rattle.std.specs.Prelude.{◌≡◌};
ghost use Rattle.index_walk.specs.Walking.{walk_start, counted, is_header, is_member, header_of, last_after, no_entry, next_entry};

use meaning::{Entry, SetType};

// Where a walk stands: the offset of the next line, the lines before it, and the number of the last header's or name's line (0: none so far).
#[derive(Drop)]
pub struct Walk {
    pub at: usize,
    pub lines: usize,
    pub header: usize,
}

// The entry of the line at the walk, and the walk after that line.
#[derive(Drop)]
pub struct NextEntry {
    pub entry: Entry,
    pub walk: Walk,
}

// At the first line of a set.
pub fn start() -> Walk
    ensures { result ≡ walk_start }
{
    Walk {
        at: 0,
        lines: 0,
        header: 0,
    }
}

// One line more; "a set has at most 512 lines", so the count goes no further.
fn one_more(n: usize) -> usize
    ensures { result ≡ counted n }
{
    if SetType::LINES <= n {
        return n;
    }
    n + 1
}

// ---- headers and members by their labels

// "Every 8410 opens a group", "every 6302 opens a group", "even labels 6330 to 6398 are names".
fn is_header(label: usize) -> bool
    ensures { result ≡ is_header label }
{
    if meaning::LABEL_8410 < label {
        return false;
    }
    if label == meaning::LABEL_8410 {
        return true;
    }
    if table_fields::is_pair(label) {
        return label % 2 == 0;
    }
    label == meaning::LABEL_6302
}

// "8411 to 8480", "6303, 6304 and 6305", and the odd labels 6331 to 6399.
fn is_member(label: usize) -> bool
    ensures { result ≡ is_member label }
{
    if meaning::LABEL_8410 < label {
        return label <= meaning::LABEL_8480;
    }
    if table_fields::is_pair(label) {
        return label % 2 == 1;
    }
    if label < meaning::LABEL_6303 {
        return false;
    }
    label <= meaning::LABEL_6305
}

// The number of the header's line of a line with this label, 0 for none: a member's header is the last one before it. In 6311 sets "8432 and 8439 are plain
// single fields", and no header stands before them.
fn header_of(label: usize, last: usize) -> usize
    ensures { result ≡ header_of label last }
{
    if is_member(label) {
        return last;
    }
    0
}

// The number of the last header's line, after the line with this label and number.
fn last_after(label: usize, number: usize, last: usize) -> usize
    ensures { result ≡ last_after label number last }
{
    if is_header(label) {
        return number;
    }
    last
}

// ---- from line to line

// If no line stands there: an entry of zeros, and a walk that starts again.
fn no_entry() -> NextEntry
    ensures { result ≡ no_entry }
{
    let walk = start();
    NextEntry {
        entry: Entry {
            label: 0,
            place: 0,
            length: 0,
            header: 0,
        },
        walk,
    }
}

// The entry of the line at the walk, as its bytes give it, and the walk after that line.
pub fn next_entry(set: &[u8], walk: Walk) -> NextEntry
    ensures { result ≡ next_entry set.now walk }
{
    let at = walk.at;
    if !line_read::has_lead(set, at) {
        return no_entry();
    }
    let length = line_read::told_length(set, at);
    let label = line_read::told_label(set, at);
    let lines = one_more(walk.lines);
    let last = last_after(label, lines, walk.header);
    let header = header_of(label, walk.header);
    NextEntry {
        entry: Entry {
            label,
            place: at + meaning::LINE_LEAD,
            length,
            header,
        },
        walk: Walk {
            at: at + (length + meaning::LINE_FRAME),
            lines,
            header: last,
        },
    }
}
