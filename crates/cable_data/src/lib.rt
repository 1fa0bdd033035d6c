// The data of a set on the cable: "Lines are joined by one 1Ch in place of their 0Dh 0Ah". Where they stand in the set's bytes, and some of them put into a lent buffer.
// Assumes of each call that the set was judged and that it has the data that are asked for: only other crates here call it, and they prove that.
#![tactic(auto)]

ghost use Rattle.std.specs.Prelude.{◌≡◌, ◌+◌, ◌≤◌, length};
ghost use Rattle.byte_put.specs.Places.{over};
ghost use Rattle.cable_data.specs.Carried.{carried, width, data_from, place_after, HasData};

// A line has this many bytes of data more than its content: one 1Ch is carried for its two last bytes.
const LINE_FRAME_DATA: usize = meaning::LINE_FRAME - 1;

// What a byte of a set is on the cable.
fn carried(b: u8) -> u8
    ensures { result ≡ carried b }
{
    if b == meaning::CR {
        return meaning_cable::SEPARATOR;
    }
    b
}

// How many bytes of the set it stands for.
fn width(b: u8) -> usize
    ensures { result ≡ width b }
{
    if b == meaning::CR {
        return meaning::LINE_END;
    }
    1
}

// The offset at which byte n of a set's data stands. The lines before it are passed over by the lengths that they say: so how far a turn goes is known only at the line, and no iterator has these steps.
pub fn place_of(set: &[u8], n: usize) -> usize
    requires { HasData set.now n }
    ensures { result ≡ place_after set.now 0 n }
{
    let mut at: usize = 0;
    let mut left = n;
    loop {
        let line = line_read::told_length(set, at) + LINE_FRAME_DATA;
        if left < line {
            return at + left;
        }
        left -= line;
        at += line + 1;
    }
}

// n bytes of data, from an offset of the set on, put at an offset.
pub fn put_data(set: &[u8], from: usize, n: usize, out: &mut [u8], to: usize)
    requires { (place_after set.now from n ≤ length set.now) × (to + n ≤ length out.old) }
    ensures { out.new ≡ over to (data_from set.now from n) out.old }
{
    let mut at = from;
    for i in 0..n {
        let b = set[at];
        out[to + i] = carried(b);
        at += width(b);
    }
}
