// One set alone in its bytes, and how many blocks it has on the cable.
// No function has a `requires`. The contracts cite specs/BlockCounts; proofs/AloneSetLaws says what it means.
#![tactic(auto)]

ghost use Rattle.std.specs.Prelude.{◌≡◌};
ghost use Rattle.meaning_cable.specs.Blocks.{blocks_of};
ghost use Rattle.meaning_cable.specs.CableCalls.{counted};
ghost use Rattle.cable_set.specs.BlockCounts.{alone_of, data_length, count_for};

use meaning::{Refusal, Shape};

// The fewest blocks of a set: "a set that would fit one block is cut after its first 1Ch".
const FEWEST: usize = 2;

// "The sender refuses as the set does, and 18 for a second set": what judging says of the set at the front of this many bytes, held against these. The caller judges the set: so each one calls the
// same `judge`, and a set that is refused at its start is handed over without a further frame.
pub fn alone_of(judged: Result<Shape, Refusal>, length: usize) -> Result<Shape, Refusal>
    ensures { result ≡ alone_of judged length }
{
    let shape = judged?;
    // 18, BadUse: "another set follows (place: first set's length)"
    if shape.length < length {
        return Err(Refusal::at(Refusal::BAD_USE, shape.length));
    }
    Ok(shape)
}

// How many bytes of data a set has: each line without its 0Dh 0Ah, and "one 1Ch in place of" them between two.
pub fn data_length(shape: Shape) -> usize
    ensures { result ≡ data_length shape }
{
    shape.length.saturating_sub(shape.lines).saturating_sub(1)
}

// "The data are cut every 128 bytes".
pub fn count_for(length: usize) -> usize
    ensures { result ≡ count_for length }
{
    if length <= meaning_cable::DATA {
        return FEWEST;
    }
    length.div_ceil(meaning_cable::DATA)
}

// How many blocks the one set in these bytes has.
pub fn blocks_of(set: &[u8]) -> Result<usize, Refusal>
    ensures { result ≡ counted (blocks_of set.now) }
{
    // 1, Empty, which `judge` would answer too: here nothing has been set up for judging yet.
    if set.is_empty() {
        return Err(Refusal::at(Refusal::EMPTY, 0));
    }
    let shape = alone_of(judge::judge(set), set.len())?;
    Ok(count_for(data_length(shape)))
}
