// What the program gdtlist writes to standard output, gathered in a block that is written when it is full. What is printed of a set is what `judge::judge` and
// `index_walk::next_entry` answer. No contract says what is written; they say that the block stays whole, and that a write that failed is kept and told.
#![tactic(auto)]

ghost use Rattle.std.specs.Prelude.{◌≡◌, ◌≤◌, None, Some, OnOk, IfErr, IfSome};
ghost use Rattle.std.specs.Io.{WritesAtMost};
ghost use Rattle.std.specs.Io.KnownBytes.{Appends, Keeps, WriteAppends};
ghost use Rattle.program_out.specs.declared.TheConstants.{BLOCK};

use meaning::{Refusal, Shape};
use std::io;
use std::io::{Error, Write};

// The bytes of the block.
pub const BLOCK: usize = 4096;

// The block that gathers what is put: this many of its bytes are still to be written.
#[derive(Clone, Copy)]
pub struct Held {
    bytes: [u8; BLOCK],
    pub used: usize,
    ghost within: { used ≤ BLOCK },
}

// A stream, its block, and why a write failed, if one did. After a write that failed none is tried: what is put then is let go, and `flush` answers the error again. std's
// BufWriter has its block on the heap.
#[derive(Clone, Copy, Drop)]
pub struct Out<W: Write + Drop> {
    to: W,
    pub held: Held,
    pub failed: Option<Error>,
}

impl<W: Write + Drop> Out<W> {
    // Nothing was put yet.
    pub fn new(to: W) -> Self
        ensures empty { result.held.used ≡ 0 }
        ensures none_failed { result.failed ≡ None }
    {
        Out {
            to,
            held: Held {
                bytes: [0; BLOCK],
                used: 0,
            },
            failed: None,
        }
    }

    // Whether every write went well, and else why the first one failed that did not.
    fn told(&self) -> io::Result<()>
        ensures none_failed { OnOk result (self.now.failed ≡ None) }
        ensures kept { IfErr result (λ error. self.now.failed ≡ Some error) }
    {
        match self.failed {
            None => Ok(()),
            Some(error) => Err(error),
        }
    }

    // Numbers, each after a space, and the end of the line.
    fn put_numbers(&mut self, numbers: &[usize]) -> io::Result<()> {
        for number in numbers {
            write!(self, " {number}")?;
        }
        self.write_all(b"\n")
    }

    // "A refusal prints `refused`, number, place, label."
    pub fn put_refusal(&mut self, refusal: &Refusal) -> io::Result<()>
        ensures none_failed { OnOk result ((self.old.failed ≡ None) × (self.new.failed ≡ None)) }
    {
        self.told()?;
        self.write_all(b"refused")?;
        self.put_numbers(&[refusal.no, refusal.place, refusal.label])?;
        self.told()
    }

    // The set of this shape at the front of some bytes. "First line: type, bytes, lines. Then line number, label, content place, content length, header."
    pub fn put_set(&mut self, set: &[u8], shape: Shape) -> io::Result<()>
        ensures none_failed { OnOk result ((self.old.failed ≡ None) × (self.new.failed ≡ None)) }
    {
        self.told()?;
        self.write_all(b"set")?;
        self.put_numbers(&[shape.settype, shape.length, shape.lines])?;
        let mut walk = index_walk::start();
        for number in 1..=shape.lines {
            let next = index_walk::next_entry(set, walk);
            let entry = next.entry;
            walk = next.walk;
            writeln!(
                self,
                "{number} {} {} {} {}",
                entry.label, entry.place, entry.length, entry.header
            )?;
        }
        self.told()
    }
}

impl<W: Write + Drop> Write for Out<W> {
    // The whole text, after all that was put before.
    fn write(&mut self, text: &[u8]) -> io::Result<usize>
        ensures bound { WritesAtMost result text.now }
        ensures bytes { WriteAppends None None result text.now }
        ensures kept { IfErr result (λ error. self.new.failed ≡ Some error) }
        ensures first { IfSome self.old.failed (λ error. self.new.failed ≡ Some error) }
    {
        self.write_all(text)?;
        Ok(text.len())
    }

    // All that was put is written, unless a write fails or failed before. It stands apart from `write_all`, whose test for room is inlined.
    #[cold]
    #[inline(never)]
    fn flush(&mut self) -> io::Result<()>
        ensures bytes { Keeps None None }
        ensures empty { self.new.held.used ≡ 0 }
        ensures none_failed { OnOk result ((self.old.failed ≡ None) × (self.new.failed ≡ None)) }
        ensures kept { IfErr result (λ error. self.new.failed ≡ Some error) }
        ensures first { IfSome self.old.failed (λ error. self.new.failed ≡ Some error) }
    {
        let used = self.held.used;
        self.held.used = 0;
        self.told()?;
        let written = self.to.write_all(&self.held.bytes[..used]);
        self.failed = written.err();
        written
    }

    // The whole text. What the block has no room for comes after all that was put before, and is written at once if it is longer than the block.
    #[inline(always)]
    fn write_all(&mut self, text: &[u8]) -> io::Result<()>
        ensures bytes { OnOk result (Appends None None text.now) }
        ensures kept { IfErr result (λ error. self.new.failed ≡ Some error) }
        ensures first { IfSome self.old.failed (λ error. self.new.failed ≡ Some error) }
    {
        if BLOCK - self.held.used < text.len() {
            self.flush()?;
            if BLOCK < text.len() {
                let passed = self.to.write_all(text);
                self.failed = passed.err();
                return passed;
            }
        }
        let end = self.held.used + text.len();
        self.held.bytes[self.held.used..end].copy_from_slice(text);
        self.held.used = end;
        Ok(())
    }
}
