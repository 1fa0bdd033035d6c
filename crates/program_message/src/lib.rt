// The messages of the program gdtlist, on standard error. No contract says what is written.
#![tactic(auto)]

use std::io::{Error, Write};

// The most bytes that std prints of an error: the system's words, of 256 bytes at most, and their number.
const MOST_WORDS: usize = 320;

// A text on standard error. If it cannot be written, nobody can be told.
pub fn tell(to: &impl Print, text: &[u8]) {
    let _ = to.write_all(text);
}

// The system's words for an error, without their number, which std prints after them. They go into a room of their own: nothing is on the heap.
fn tell_reason(to: &impl Print, error: Error) {
    let mut room = [0u8; MOST_WORDS];
    let mut rest = &mut room[..];
    let _ = write!(rest, "{error}");
    let used = MOST_WORDS.saturating_sub(rest.len());
    let Ok(said) = std::str::from_utf8(&room[..used]) else {
        return;
    };
    match said.split_once(" (os error ") {
        Some((words, _)) => tell(to, words.as_bytes()),
        None => tell(to, said.as_bytes()),
    }
}

// A call that failed, of this file or stream, with the system's reason.
pub fn tell_failed(to: &impl Print, what: &[u8], name: &[u8], error: Error) {
    tell(to, b"gdtlist: cannot ");
    tell(to, what);
    tell(to, name);
    tell(to, b": ");
    tell_reason(to, error);
    tell(to, b"\n");
}

// Standard output could not be written.
pub fn tell_unwritten(to: &impl Print, error: Error) {
    tell_failed(to, b"write to ", b"standard output", error);
}

// Places of the list count from the start of its set: so this says where that is.
pub fn tell_refused(to: &impl Print, no: usize, at: usize) {
    let _ = println!(to; "gdtlist: refused by {no}, in the set at byte {at} of the input");
}
