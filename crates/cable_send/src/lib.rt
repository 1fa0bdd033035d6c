// The sender by value: "The link keeps one state record that each call updates: reply in, next action out."
// Nothing is assumed of the record and of the bytes. The contracts cite the rule table of `meaning_cable` (specs/Sending), each function the definition of its name.
#![tactic(auto)]

ghost use Rattle.std.specs.Prelude.{◌≡◌, ◌+◌, leb};
ghost use Rattle.meaning_cable.specs.Sending.{is_ack, end_of, once_more, second_attempt, goes, stops, first_count, begun, acked, failed, turn_of, send};
ghost use Rattle.meaning_cable.specs.CableCalls.{sent};

use cable_set::blocks_of;
use meaning::Refusal;
use meaning_cable::{Action, Link, Turned};

// ACK 1 is 06h 31h.
const ACK_1: [u8; 2] = [0x06, b'1'];

// "0 at the start", and at the start of a second attempt.
const START_COUNT: usize = 0;

// The first attempt to send a set; any more is the second.
const FIRST_ATTEMPT: usize = 1;

const SECOND_ATTEMPT: usize = 2;

// "A timeout or any reply but ACK 1 is an error"; a timeout is a reply of no bytes.
fn is_ack(reply: &[u8]) -> bool
    ensures { result ≡ is_ack reply.now }
{
    reply == ACK_1.as_slice()
}

// Whether the block that was sent last is the last one: block + 1 >= blocks, for any numbers of the record.
fn is_last(link: Link) -> bool
    ensures { result ≡ leb link.blocks (link.block + 1) }
{
    link.blocks.saturating_sub(1) <= link.block
}

// ---- what has to be done next

// "Calls after the end answer so"; else nothing is under way.
fn end_of(link: Link) -> Action
    ensures { result ≡ end_of link }
{
    match link.phase {
        Link::DELIVERED => Action::Delivered,
        Link::GIVEN_UP => Action::GivenUp,
        _ => Action::Nothing,
    }
}

// The block that this link names has to be sent, with the link's count.
fn goes(link: Link) -> Turned
    ensures { result ≡ goes link }
{
    Turned {
        link,
        action: Action::Send {
            block: link.block,
            count: link.count,
        },
    }
}

// The set is delivered or given up, and that is told: of the link only the phase changes.
fn stops(phase: usize, action: Action, link: Link) -> Turned
    ensures { result ≡ stops phase action link }
{
    Turned {
        link: Link { phase, ..link },
        action,
    }
}

// ---- a set begins

// The count goes on after a delivered set; it is 0 "at the start, after a given-up set", and after a set that was still under way.
fn first_count(link: Link) -> usize
    ensures { result ≡ first_count link }
{
    if link.phase != Link::DELIVERED {
        return START_COUNT;
    }
    cable_count::next_count(link.count)
}

// A set of this many blocks begins, with its first block.
fn begun(link: Link, blocks: usize) -> Turned
    ensures { result ≡ begun link blocks }
{
    let count = first_count(link);
    goes(Link {
        phase: Link::UNDER_WAY,
        blocks,
        attempt: FIRST_ATTEMPT,
        block: 0,
        errors: 0,
        count,
    })
}

// ---- a reply comes

// After ACK 1: the next block with the next count; after the last block the set is delivered.
fn acked(link: Link) -> Turned
    ensures { result ≡ acked link }
{
    if is_last(link) {
        return stops(Link::DELIVERED, Action::Delivered, link);
    }
    let count = cable_count::next_count(link.count);
    goes(Link {
        phase: Link::UNDER_WAY,
        block: link.block + 1,
        errors: 0,
        count,
        ..link
    })
}

// The first error on a block: the same block with the same count once more; the error is noted.
fn once_more(link: Link) -> Turned
    ensures { result ≡ goes (once_more link) }
{
    goes(Link {
        phase: Link::UNDER_WAY,
        errors: 1,
        ..link
    })
}

// "A second error in a row on a block starts again from B00 with count 0".
fn second_attempt(link: Link) -> Turned
    ensures { result ≡ goes (second_attempt link) }
{
    goes(Link {
        phase: Link::UNDER_WAY,
        attempt: SECOND_ATTEMPT,
        block: 0,
        errors: 0,
        count: START_COUNT,
        ..link
    })
}

// After an error. "A second failed attempt ends it".
fn failed(link: Link) -> Turned
    ensures { result ≡ failed link }
{
    if link.errors == 0 {
        return once_more(link);
    }
    if link.attempt <= FIRST_ATTEMPT {
        return second_attempt(link);
    }
    stops(Link::GIVEN_UP, Action::GivenUp, link)
}

// A reply to the block that was sent last, none for a timeout. If nothing is under way it is not looked at.
fn turn_of(link: Link, reply: &[u8]) -> Turned
    ensures { result ≡ turn_of link reply.now }
{
    if link.phase != Link::UNDER_WAY {
        return Turned {
            link,
            action: end_of(link),
        };
    }
    if is_ack(reply) {
        return acked(link);
    }
    failed(link)
}

// ---- the call

// To begin, the bytes are the set; else they are the reply. Only a set is refused.
pub fn send(link: Link, begin: bool, bytes: &[u8]) -> Result<Turned, Refusal>
    ensures { result ≡ sent (send link begin bytes.now) }
{
    if begin {
        let blocks = blocks_of(bytes)?;
        return Ok(begun(link, blocks));
    }
    Ok(turn_of(link, bytes))
}
