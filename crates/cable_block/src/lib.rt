// `block`: one block of the set in some bytes, put into a lent buffer: where its data are cut, its label, and what is answered if there is no such block.
// It has no `requires`. The other functions are its parts.
#![tactic(auto)]

ghost use Rattle.std.specs.Prelude.{◌≡◌, ◌≤◌, ◌<◌, length, replicate, Ok};
ghost use Rattle.meaning.specs.Limits.{max_set_bytes};
ghost use Rattle.meaning_cable.specs.Blocks.{label_digit, block_label, set_alone};
ghost use Rattle.meaning_cable.specs.Receiving.{max_block};
ghost use Rattle.meaning_cable.specs.CableCalls.{block_call};
ghost use Rattle.cable_set.specs.BlockCounts.{alone_judged, count_for};
ghost use Rattle.cable_block.specs.Cutting.{cut_for, end_for};

use meaning::{Refusal, Shape};
use meaning_cable::{BLOCK, BlockLabel, DATA};

// Line 1 of an accepted set is this many bytes of data: `01380006300` or another type's, and the 1Ch after it.
const FIRST_DATA: usize = meaning::TYPE_DIGITS + meaning::LINE_FRAME - 1;

// ---- where the data are cut

// "The data are cut every 128 bytes; a set that would fit one block is cut after its first 1Ch": how many of n bytes of data stand before block i.
fn cut_for(n: usize, i: usize) -> usize
    requires { (n ≤ max_set_bytes) × (i ≤ count_for n) }
    ensures { result ≡ cut_for n i }
{
    if DATA < n {
        return DATA * i;
    }
    if i == 0 {
        return 0;
    }
    if i == 1 {
        return FIRST_DATA;
    }
    n
}

// How many stand before its end.
fn end_for(n: usize, i: usize) -> usize
    requires { (n ≤ max_set_bytes) × (i < count_for n) }
    ensures { result ≡ end_for n i }
{
    cut_for(n, i + 1).min(n)
}

// The label of block i.
fn label_for(i: usize, blocks: usize) -> BlockLabel
    requires { i < blocks }
    ensures { label_digit result ≡ block_label i blocks }
{
    if i == 0 {
        return BlockLabel::B00;
    }
    if i + 1 < blocks {
        return BlockLabel::B01;
    }
    BlockLabel::B02
}

// No block: length 0, and every byte zero (E3h, E3i).
fn no_block(out: &mut [u8]) -> Result<usize, Refusal>
    ensures { (result ≡ Ok 0) × (out.new ≡ replicate (length out.old) 0) }
{
    byte_put::clear(out);
    Ok(0)
}

// ---- the block of a set

// Block i of an accepted set.
fn block_accepted(
    set: &[u8],
    shape: Shape,
    i: usize,
    count: usize,
    out: &mut [u8],
) -> Result<usize, Refusal>
    requires { (Ok shape ≡ alone_judged (set_alone set.now)) × (max_block ≤ length out.old) }
    ensures { (result ≡ (block_call set.now i count out.old).answer) × (out.new ≡ (block_call set.now i count out.old).buffer) }
{
    let length = cable_set::data_length(shape);
    let blocks = cable_set::count_for(length);
    // the set has no such block
    if blocks <= i {
        return no_block(out);
    }
    // "count 1 to 9 then 1 again", 0 at the start
    if meaning_cable::COUNT < count {
        return no_block(out);
    }
    let start = cut_for(length, i);
    let n = end_for(length, i) - start;
    let from = cable_data::place_of(set, start);
    let label = label_for(i, blocks);
    Ok(cable_frame::put_block(count, label, set, from, n, out))
}

// "The sender refuses as the set does, and 18 for a second set".
fn block_in(set: &[u8], i: usize, count: usize, out: &mut [u8]) -> Result<usize, Refusal>
    requires { max_block ≤ length out.old }
    ensures { (result ≡ (block_call set.now i count out.old).answer) × (out.new ≡ (block_call set.now i count out.old).buffer) }
{
    let shape = cable_set::alone_of(judge::judge(set), set.len())?;
    block_accepted(set, shape, i, count, out)
}

// Block i, from 0, of the one set in these bytes, with this sequence count, at the front of `out`; zeros after it. So much room is enough for any block.
pub fn block(set: &[u8], i: usize, count: usize, out: &mut [u8; BLOCK]) -> Result<usize, Refusal>
    ensures { (result ≡ (block_call set.now i count out.old).answer) × (out.new ≡ (block_call set.now i count out.old).buffer) }
{
    block_in(set, i, count, out)
}
