// Standard input answered to standard output: document 01, 'Frames'. What is answered is the crate stream's; here are the calls
// that read and write, of which no contract can say which bytes they move. What a read brings is answered, and the replies are
// written, before the next read, so that a person at a pipe gets a reply to each line. Memory does not grow with the input.
ghost use Rattle.std.specs.Prelude.{◌≡◌, true, false, Ok, ◌≤◌, ◌<◌, length, take};
ghost use Rattle.lines.specs.Stream.{finished, unfinished, last_line, replies_to};
ghost use Rattle.frames.specs.Replies.{reply_of};
ghost use Rattle.stream.specs.Answers.{Moves};
ghost use Rattle.intake.specs.Console.{Ready, Holds, Replies, Begins, brought, came};

use std::io::{Error, ErrorKind, Read, Result, Write};
use stream::Progress;

// Whether a call that failed was only interrupted by a signal, and is to be tried again.
fn was_interrupted(error: &Error) -> bool {
    error.kind() == ErrorKind::Interrupted
}

// Tells on standard error which call failed, and why. Where that fails too, nobody is there to be told.
fn tell_failure(rt: &HostRuntime, what: &str, error: &Error) {
    let _ = eprintln!(rt; "{what}: {error}");
}

// The memory that the calls are lent, enough for all: the first k of `kept` are what is kept of a line that is not finished, and all
// that it holds. The project uses no heap, so `kept` is an array with its length beside it.
#[derive(Drop)]
struct Memory {
    kept: [u8; 515],
    k: usize,
    scratch: [u64; lent::SCRATCH],
    out: [u8; 65536],
    ghost ready: { Ready kept k scratch out },
}

// Writes all of the bytes, or answers why it could not. A loop has to end, so it takes fewer turns than a number that no run uses up.
// Std's own `write_all` tells in other words that a write took no byte, so it is not called here.
fn write_all(rt: &HostRuntime, bytes: &[u8]) -> Result<()> {
    let mut rest = bytes;
    for _ in 0..u64::MAX {
        if rest.is_empty() {
            return Ok(());
        }
        match rt.stdout().write(rest) {
            Ok(0) => return Err(Error::from(ErrorKind::WriteZero)),
            Ok(written) => rest = &rest[written..],
            Err(error) => {
                if !was_interrupted(&error) {
                    return Err(error);
                }
            }
        }
    }
    Err(Error::from(ErrorKind::TimedOut))
}

// The same for replies, with a failure told on standard error. Nothing else is written to standard output.
fn put(rt: &HostRuntime, bytes: &[u8]) -> bool
    requires { Replies bytes.now }
{
    match write_all(rt, bytes) {
        Ok(()) => true,
        Err(error) => {
            tell_failure(rt, "standard output", &error);
            false
        }
    }
}

// How many bytes of the block a read brought, given what the read call answered: none where it failed, and no more than the block has.
fn count(got: &Result<usize>, block: &[u8]) -> usize
    ensures in_bounds { result ≤ length block.now }
    ensures value { result ≡ brought got.now (length block.now) }
{
    match got {
        Ok(n) => (*n).min(block.len()),
        Err(_) => 0,
    }
}

// How much of a block one call answered, and whether its replies were written.
#[derive(Clone, Copy)]
struct Part {
    used: usize,
    is_put: bool,
}

impl Memory {
    // Answers as much of a block as the room for replies takes. Enough is lent, so that no call is refused.
    fn take_part(&mut self, block: &[u8]) -> Progress
        ensures moves { Moves block.now self.new.out result.used result.kept result.written }
        ensures kept { Holds (unfinished (take self.old.k self.old.kept) (take result.used block.now)) self.new.kept self.new.k }
        ensures out { take result.written self.new.out
            ≡ replies_to reply_of (finished (take self.old.k self.old.kept) (take result.used block.now)) }
    {
        let part = stream::answer_block(
            block,
            &mut self.kept,
            self.k,
            &mut self.scratch,
            &mut self.out,
        )
        .unwrap();
        self.k = part.kept;
        part
    }

    // The same, and writes the replies. They stand first in `out`.
    fn answer_part(&mut self, rt: &HostRuntime, block: &[u8]) -> Part
        ensures moves { (result.used ≤ length block.now) × (0 < length block.now → 0 < result.used) }
        ensures kept { Holds (unfinished (take self.old.k self.old.kept) (take result.used block.now)) self.new.kept self.new.k }
        ensures out { Begins (replies_to reply_of (finished (take self.old.k self.old.kept) (take result.used block.now)))
            self.new.out }
    {
        let taken = self.take_part(block);
        Part {
            used: taken.used,
            is_put: put(rt, &self.out[0..taken.written]),
        }
    }

    // Answers a block, part by part, and tells whether the replies could be written. Where they could, what the whole block leaves
    // unfinished is kept.
    fn answer_bytes(&mut self, rt: &HostRuntime, block: &[u8]) -> bool
        ensures { result ≡ true → Holds (unfinished (take self.old.k self.old.kept) block.now) self.new.kept self.new.k }
    {
        let mut at = 0;
        // A call tells how much of the block it used, so no iterator knows the parts beforehand.
        while at < block.len() {
            let part = self.answer_part(rt, &block[at..]);
            at += part.used;
            if !part.is_put {
                return false;
            }
        }
        true
    }

    // Answers what is kept at the end of the input, and tells how many bytes of a reply it wrote to memory.
    fn take_rest(&mut self) -> usize
        ensures out { (result ≤ length self.new.out)
            × (take result self.new.out ≡ replies_to reply_of (last_line (take self.old.k self.old.kept))) }
        ensures kept { (self.new.kept ≡ self.old.kept) × (self.new.k ≡ self.old.k) }
    {
        stream::answer_end(&self.kept, self.k, &mut self.scratch, &mut self.out).unwrap()
    }

    // The same, and writes the reply. It stands first in `out`.
    fn answer_rest(&mut self, rt: &HostRuntime)
        ensures out { Begins (replies_to reply_of (last_line (take self.old.k self.old.kept))) self.new.out }
        ensures kept { (self.new.kept ≡ self.old.kept) × (self.new.k ≡ self.old.k) }
    {
        let written = self.take_rest();
        put(rt, &self.out[0..written]);
    }

    // Answers what a read brought, given what the read call answered: the kept line at the end of the input, else all the bytes that
    // came. Tells whether there is more to read. A read that was interrupted brings nothing, and the next one tries again; one that
    // failed is told on standard error. Where there is more to read, what the bytes that came leave unfinished is kept.
    fn answer_got(&mut self, rt: &HostRuntime, got: Result<usize>, block: &[u8]) -> bool
        ensures end { got ≡ Ok 0 → (result ≡ false)
            × Begins (replies_to reply_of (last_line (take self.old.k self.old.kept))) self.new.out }
        ensures more { result ≡ true
            → Holds (unfinished (take self.old.k self.old.kept) (came got block.now)) self.new.kept self.new.k }
    {
        match &got {
            Ok(0) => {
                self.answer_rest(rt);
                return false;
            }
            Ok(_) => (),
            Err(error) => {
                if !was_interrupted(error) {
                    tell_failure(rt, "standard input", error);
                    return false;
                }
            }
        }
        let n = count(&got, block);
        self.answer_bytes(rt, &block[0..n])
    }
}

// Answers standard input: reads it in blocks of 65,536 bytes, and writes a reply for each line, until there is no more to read. A read
// or a write that fails is told on standard error and ends it. No contract can say that the number which is handed on is the one that
// the read call answered.
pub fn answer_input(rt: &HostRuntime) {
    let mut block = io::large_buffer();
    let mut memory = Memory {
        kept: [0; 515],
        k: 0,
        scratch: [0; lent::SCRATCH],
        out: io::large_buffer(),
    };
    for _ in 0..u64::MAX {
        let got = rt.stdin().read(&mut block);
        if !memory.answer_got(rt, got, &block) {
            return;
        }
    }
}
