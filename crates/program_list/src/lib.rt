// The program gdtlist: it lists the sets of a file or of standard input, and answers its exit status. Crate `gdtlist` has its `main`.
// Here are its words and what it reads; `program_status::list_bytes` lists what was read, and `program_out` has all that is written. Every function is proved safe and ending.
#![tactic(auto)]

use program_message::{tell, tell_failed, tell_unwritten};
use program_status::Status;
use std::env::{Env, FillError};
use std::fs::File;
use std::io::{Error, ErrorKind, Read};
use std::{io, str};

// "at most 65,536 bytes"
const MOST_BYTES: usize = 65_536;

// One byte more, so that a longer input shows.
const ROOM: usize = MOST_BYTES + 1;

// The most bytes of the word.
const MOST_WORD: usize = 4096;

// What the system calls a name that is too long.
const NAME_TOO_LONG: i32 = 36;

// What the one word asks.
#[derive(Drop)]
enum Request {
    Help,
    StandardInput,
    File,
    Unknown,
}

// ---- reading

// All that can be read, until it ends or the room is full: this many bytes were read. A read gives any number of them, so no count of turns is known before.
fn read_input(input: &mut impl Read, room: &mut [u8]) -> io::Result<usize> {
    let mut at = 0;
    while at < room.len() {
        match input.read(&mut room[at..])? {
            0 => break,
            n => at += n,
        }
    }
    Ok(at)
}

// ---- the list

// "longer prints only `too long`"
fn list_too_long(rt: &HostRuntime) -> Status {
    if let Err(error) = rt.stdout().write_all(b"too long\n") {
        tell_unwritten(&rt.stderr(), error);
        return Status::Trouble;
    }
    tell(
        &rt.stderr(),
        b"gdtlist: the input has more than 65536 bytes\n",
    );
    Status::Refused
}

// The sets of all that can be read of an input; `name` is what the reader of a message calls it.
fn list_input(rt: &HostRuntime, input: &mut impl Read, name: &[u8]) -> Status {
    let mut room = [0u8; ROOM];
    match read_input(input, &mut room) {
        Err(error) => {
            tell_failed(&rt.stderr(), b"read ", name, error);
            Status::Trouble
        }
        Ok(n) => {
            if MOST_BYTES < n {
                return list_too_long(rt);
            }
            // if writes are interrupted again and again, this writer gives up; the stream itself never would
            program_status::list_bytes(io::writer(&rt.stdout()), &rt.stderr(), &room[..n])
        }
    }
}

fn list_standard_input(rt: &HostRuntime) -> Status {
    list_input(rt, &mut rt.stdin(), b"standard input")
}

// std opens a file by a name that is text. One by another name can be given as standard input.
fn open(rt: &HostRuntime, path: &[u8]) -> io::Result<File> {
    match str::from_utf8(path) {
        Ok(name) => File::open(rt, name),
        Err(_) => Err(Error::new(ErrorKind::InvalidFilename, "its name is not UTF-8")),
    }
}

// It is closed at the end: nothing is written to it, so closing cannot lose anything.
fn list_file(rt: &HostRuntime, path: &[u8]) -> Status {
    match open(rt, path) {
        Ok(mut file) => list_input(rt, &mut file, path),
        Err(error) => {
            tell_failed(&rt.stderr(), b"open ", path, error);
            Status::Trouble
        }
    }
}

// ---- the words

// An empty word is a file's name, which no file has.
fn request_of(word: &[u8]) -> Request {
    match word {
        b"--help" | b"-h" => Request::Help,
        b"-" => Request::StandardInput,
        [b'-', ..] => Request::Unknown,
        _ => Request::File,
    }
}

fn tell_usage(rt: &HostRuntime) {
    tell(&rt.stderr(), b"usage: gdtlist [FILE]\n");
}

fn unknown(rt: &HostRuntime, word: &[u8]) -> Status {
    tell(&rt.stderr(), b"gdtlist: ");
    tell(&rt.stderr(), word);
    tell(&rt.stderr(), b" is no option\n");
    tell_usage(rt);
    Status::Trouble
}

fn help(rt: &HostRuntime) -> Status {
    let written = rt.stdout().write_all(
        b"usage: gdtlist [FILE]\n\
Lists the GDT 2.1 sets of FILE, or of standard input if FILE is - or not given.\n\
\n\
set TYPE BYTES LINES              a set\n\
NUMBER LABEL PLACE LENGTH HEADER  each of its lines: where its content stands, its header's line or 0\n\
refused NUMBER PLACE LABEL        a set that breaks a rule: the number as in gdt.h; nothing follows\n\
too long                          an input of more than 65536 bytes: nothing else is printed\n\
\n\
A place counts from the start of its set. The status is 0 if every set is listed,\n\
1 if a set is refused or the input is too long, 2 if something failed.\n",
    );
    if let Err(error) = written {
        tell_unwritten(&rt.stderr(), error);
        return Status::Trouble;
    }
    Status::Listed
}

fn run_word(rt: &HostRuntime, word: &[u8]) -> Status {
    match request_of(word) {
        Request::Help => help(rt),
        Request::StandardInput => list_standard_input(rt),
        Request::File => list_file(rt, word),
        Request::Unknown => unknown(rt, word),
    }
}

// Whether it was started with this word; the first one, 0, is the program's own name.
fn has_word(rt: &HostRuntime, i: usize) -> bool {
    !matches!(rt.arg(i, &mut [0u8; 1]), Err(FillError::NotPresent))
}

// The program, by the words that it was started with; answers its exit status.
pub fn gdtlist_run(rt: &HostRuntime) -> Status {
    if has_word(rt, 2) {
        tell(&rt.stderr(), b"gdtlist: more than one word\n");
        tell_usage(rt);
        return Status::Trouble;
    }
    let mut word = [0u8; MOST_WORD];
    match rt.arg(1, &mut word) {
        Ok(n) => run_word(rt, &word[..n]),
        Err(FillError::NotPresent) => list_standard_input(rt),
        Err(FillError::TooLong) => {
            let error = Error::from_raw_os_error(NAME_TOO_LONG);
            tell_failed(&rt.stderr(), b"take ", b"the file name", error);
            Status::Trouble
        }
    }
}
