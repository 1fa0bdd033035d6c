// The C face of the serial cable: an archive of its own, so that the other calls stay as they are compiled without it.
// Assumes nothing of the bytes, the numbers and the records. The contracts cite specs/CableReplies, which gives the numbers of each answer. include/gdt.h declares the calls.
#![tactic(auto)]

ghost use Rattle.std.specs.Prelude.{◌≡◌, Err, Ok};
ghost use Rattle.meaning_cable.specs.Receiving.{receive};
ghost use Rattle.meaning_cable.specs.CableCalls.{send_call, block_call, outcome_number, received_call};
ghost use Rattle.face_replies.specs.Replies.{made_reply};
ghost use Rattle.gdtcable.specs.CableReplies.{begins, sent_reply, turn_after, send_turn, received_reply};

use face_replies::MadeReply;
use meaning::Refusal;
use meaning_cable::{Action, BLOCK, BlockOutcome, Link, Receiver, Taken};

// What the sender answers: number 0 and what it has to do next, or the refusal.
#[repr(C)]
#[derive(Drop)]
pub struct SentReply {
    pub no: usize,
    pub place: usize,
    pub label: usize,
    pub what: usize,
    pub block: usize,
    pub count: usize,
}

// What the receiver answers: number 0, what became of the block, and its record after it; or the refusal, and the record that was given. Then the number of the reply to send.
#[repr(C)]
#[derive(Drop)]
pub struct ReceivedReply {
    pub no: usize,
    pub place: usize,
    pub label: usize,
    pub what: usize,
    pub receiver: Receiver,
    pub ack: usize,
}

// The link's record after a call of the sender, and the answer.
#[derive(Drop)]
pub struct SentTurn {
    pub link: Link,
    pub reply: SentReply,
}

// ---- the sender

// The sender goes on or ends: the record that it has then, and what has to be done next.
fn next_turn(link: Link, action: Action) -> SentTurn
    ensures { result ≡ turn_after link (Ok (record { link = link; action = action })) }
{
    let (what, block, count) = match action {
        Action::Nothing => (Link::IDLE, 0, 0),
        Action::Send { block, count } => (Link::UNDER_WAY, block, count),
        Action::Delivered => (Link::DELIVERED, 0, 0),
        Action::GivenUp => (Link::GIVEN_UP, 0, 0),
    };
    SentTurn {
        link,
        reply: SentReply {
            no: 0,
            place: 0,
            label: 0,
            what,
            block,
            count,
        },
    }
}

// A set that is refused leaves the record as it was.
fn refused_turn(link: Link, refusal: Refusal) -> SentTurn
    ensures { result ≡ turn_after link (Err refusal) }
{
    SentTurn {
        link,
        reply: SentReply {
            no: refusal.no,
            place: refusal.place,
            label: refusal.label,
            what: 0,
            block: 0,
            count: 0,
        },
    }
}

// All that the sender's call comes to, by value. Each answer is made whole in its own way, so that no record is copied twice.
fn send_turn(link: Link, begin: usize, bytes: &[u8]) -> SentTurn
    ensures { result ≡ send_turn link begin bytes.now }
{
    match cable_send::send(link, begin != 0, bytes) {
        Ok(turned) => next_turn(turned.link, turned.action),
        Err(refusal) => refused_turn(link, refusal),
    }
}

// Everything is decided in `send_turn`, so that this function has no branch: a reference to a record is proved by hand (proofs/gdt_send).
#[unsafe(no_mangle)]
pub extern "C" fn gdt_send(link: &mut Link, begin: usize, bytes: &[u8]) -> SentReply
    ensures { (result ≡ sent_reply (send_call link.old (begins begin) bytes.now).answer) × (link.new ≡ (send_call link.old (begins begin) bytes.now).link) }
{
    let next = send_turn(*link, begin, bytes);
    *link = next.link;
    next.reply
}

// ---- a block

#[unsafe(no_mangle)]
pub extern "C" fn gdt_block(
    set: &[u8],
    block: usize,
    count: usize,
    out: &mut [u8; BLOCK],
) -> MadeReply
    ensures { (result ≡ made_reply (block_call set.now block count out.old).answer) × (out.new ≡ (block_call set.now block count out.old).buffer) }
{
    let made: Result<usize, Refusal> = cable_block::block(set, block, count, out);
    made.into()
}

// ---- the receiver

// The number of what became of a block.
fn outcome_number(outcome: BlockOutcome) -> usize
    ensures { result ≡ outcome_number outcome }
{
    match outcome {
        BlockOutcome::Taken => 1,
        BlockOutcome::Again => 2,
        BlockOutcome::Whole => 3,
    }
}

// The numbers of what the receiver answers. "Refusals, answered ACK 0"; all else ACK 1.
fn received_reply(receiver: Receiver, received: Result<Taken, Refusal>) -> ReceivedReply
    ensures { result ≡ received_reply receiver received }
{
    match received {
        Ok(taken) => {
            let after = taken.receiver;
            ReceivedReply {
                no: 0,
                place: 0,
                label: 0,
                what: outcome_number(taken.what),
                receiver: after,
                ack: 1,
            }
        }
        Err(refusal) => ReceivedReply {
            no: refusal.no,
            place: refusal.place,
            label: refusal.label,
            what: 0,
            receiver,
            ack: 0,
        },
    }
}

// C calls it gdt_receive. Its symbol is another one than that of version 0.2.0, whose record had no `ack`: so that what was compiled for the shorter record does not link.
#[unsafe(no_mangle)]
pub extern "C" fn gdt_receive_2(
    receiver: Receiver,
    buffer: &mut [u8],
    block: &[u8],
) -> ReceivedReply
    ensures { (result ≡ received_reply receiver (received_call (receive receiver buffer.old block.now))) × (buffer.new ≡ (receive receiver buffer.old block.now).buffer) }
{
    let received: Result<Taken, Refusal> = cable_receive::receive(receiver, buffer, block);
    received_reply(receiver, received)
}
