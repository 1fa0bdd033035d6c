// `receive`: a block comes, and its data go into the set's buffer.
// It has no `requires`: any record, any buffer, any bytes. The other functions are its parts, in the order of the rule table; nothing is written before every refusal is excluded.
#![tactic(auto)]

ghost use Rattle.std.specs.Prelude.{◌≡◌};
ghost use Rattle.meaning_cable.specs.Blocks.{label_digit};
ghost use Rattle.meaning_cable.specs.Receiving.{took_one, open_by, answer_by, receive};
ghost use Rattle.meaning_cable.specs.CableCalls.{outcome_of, received_call};
ghost use Rattle.cable_receive.specs.Turns.{block_put, block_next, block_turn};

use cable_form::Block;
use meaning::Refusal;
use meaning_cable::{BlockLabel, BlockOutcome, Receiver, Taken};

// What is answered for a block that was put: after B02 the set is whole and no longer open.
fn took(count: usize, label: BlockLabel, used: usize) -> Taken
    ensures { result ≡ record { what = outcome_of (answer_by (label_digit label)); receiver = took_one count (open_by (label_digit label)) used } }
{
    let (what, partial) = match label {
        BlockLabel::B02 => (BlockOutcome::Whole, 0),
        BlockLabel::B00 | BlockLabel::B01 => (BlockOutcome::Taken, 1),
    };
    Taken {
        what,
        receiver: Receiver {
            started: 1,
            last: count,
            partial,
            used,
        },
    }
}

// The last digit of a label.
fn digit_of(label: BlockLabel) -> usize
    ensures { result ≡ label_digit label }
{
    match label {
        BlockLabel::B00 => 0,
        BlockLabel::B01 => 1,
        BlockLabel::B02 => 2,
    }
}

// A block is put at an offset. 22, NoRoom, "only if the new used length does not fit, and its need is that length, or 2^64 - 1 if it would be more".
fn put_at(
    receiver: Receiver,
    buffer: &mut [u8],
    at: usize,
    block: &Block<'_>,
) -> Result<Taken, Refusal>
    ensures { (result ≡ received_call (block_put receiver buffer.old at block.now.bytes.now))
        × (buffer.new ≡ (block_put receiver buffer.old at block.now.bytes.now).buffer) }
{
    let label = block.label();
    let bytes = block.data_bytes();
    let digit = digit_of(label);
    let size = cable_put::put_size(digit, bytes);
    let Some(used) = at.checked_add(size) else {
        return Err(Refusal::at(Refusal::NO_ROOM, usize::MAX));
    };
    if buffer.len() < used {
        return Err(Refusal::at(Refusal::NO_ROOM, used));
    }
    cable_put::put_block(digit, bytes, buffer, at);
    Ok(took(block.count(), label, used))
}

// A block with the next count: B00 of the next set if none is open, B01 or B02 if one is. 25, BadBlock, for "a label out of turn".
fn in_turn(receiver: Receiver, buffer: &mut [u8], block: &Block<'_>) -> Result<Taken, Refusal>
    ensures { (result ≡ received_call (block_next receiver buffer.old block.now.bytes.now))
        × (buffer.new ≡ (block_next receiver buffer.old block.now.bytes.now).buffer) }
{
    let is_first = block.starts_set();
    if receiver.partial == 0 {
        if !is_first {
            return Err(Refusal::at(Refusal::BAD_BLOCK, 0));
        }
        return put_at(receiver, buffer, 0, block);
    }
    if is_first {
        return Err(Refusal::at(Refusal::BAD_BLOCK, 0));
    }
    put_at(receiver, buffer, receiver.used, block)
}

// A block without fault: "The receiver takes the next count, acknowledges the last one again without taking it, and starts afresh on 0 with B00."
fn take_turn(receiver: Receiver, buffer: &mut [u8], block: &Block<'_>) -> Result<Taken, Refusal>
    ensures { (result ≡ received_call (block_turn receiver buffer.old block.now.bytes.now))
        × (buffer.new ≡ (block_turn receiver buffer.old block.now.bytes.now).buffer) }
{
    let count = block.count();
    // "starts afresh on 0 with B00"
    if count == 0 {
        if !block.starts_set() {
            return Err(Refusal::at(Refusal::BAD_BLOCK, 0));
        }
        return put_at(receiver, buffer, 0, block);
    }
    // "Which count does a fresh receiver take? 0 alone; another count is 25."
    if receiver.started == 0 {
        return Err(Refusal::at(Refusal::BAD_BLOCK, 0));
    }
    let last = receiver.last;
    let next = cable_count::next_count(last);
    // "acknowledges the last one again without taking it"
    let repeated = count == last;
    if repeated {
        return Ok(Taken {
            what: BlockOutcome::Again,
            receiver,
        });
    }
    // 25, BadBlock, "for another count"
    let follows = count == next;
    if !follows {
        return Err(Refusal::at(Refusal::BAD_BLOCK, 0));
    }
    in_turn(receiver, buffer, block)
}

// "The order is 25 for the form, 26, 25 for count and label, 22."
pub fn receive(receiver: Receiver, buffer: &mut [u8], block: &[u8]) -> Result<Taken, Refusal>
    ensures { (result ≡ received_call (receive receiver buffer.old block.now))
        × (buffer.new ≡ (receive receiver buffer.old block.now).buffer) }
{
    // 25, BadBlock, "for the form"
    let Some(block) = Block::read(block) else {
        return Err(Refusal::at(Refusal::BAD_BLOCK, 0));
    };
    // 26, BadCrc
    if !block.crc_ok() {
        return Err(Refusal::at(Refusal::BAD_CRC, 0));
    }
    take_turn(receiver, buffer, &block)
}
