// A bench, and what came of what was asked of it.
use super::memory;
use super::memory::Bench;
use bench::{Told, Walked};
use refusals::Refusal;
use std::{fmt, io};
use test_kit::{Spaced, are_all, digest_of, first, mark, mixed, number_of};

// What was asked of a bench, and what came of it.
#[derive(Clone, Copy)]
pub struct Tally {
    pub n: u64,
    pub chains: u64,
    pub done: u64,
    pub refused: u64,
    pub walked: u64,
    pub digest: u64,
}

impl Tally {
    // Nothing asked as yet, of so many chains of n.
    pub fn new(n: u64, chains: u64) -> Tally {
        Tally {
            n,
            chains,
            done: 0,
            refused: 0,
            walked: 0,
            digest: 0,
        }
    }

    pub fn add(&mut self, x: u64) {
        self.digest = mixed(self.digest, x);
    }
}

impl fmt::Display for Tally {
    fn fmt<W: fmt::Write>(&self, f: &mut fmt::Formatter<W>) -> fmt::Result {
        write!(f, "{} {} {} ", self.n, self.chains, self.done)?;
        write!(f, "{} {} {}", self.refused, self.walked, self.digest)
    }
}

// The present chain of a bench told in print.
pub fn print_told(rt: &impl Print, bench: &[u64]) -> io::Result<()> {
    let mut places = [u16::MAX; 70];
    match bench::tell_chain(bench, &mut places) {
        Ok(Told { n, k }) => {
            let kept = mark(are_all(&places, 64, &u16::MAX));
            print!(rt; "{n} ({} ){kept}", Spaced(first(&places, k)))
        }
        Err(r) => print!(rt; "{}{}", u8::from(r), mark(are_all(&places, 0, &u16::MAX))),
    }
}

#[derive(Drop)]
pub struct Trial {
    pub bench: Bench,
    pub tally: Tally,
}

impl Trial {
    // A bench full of ones.
    pub fn new() -> Trial {
        Trial {
            bench: [u64::MAX; 384],
            tally: Tally::new(0, 0),
        }
    }

    // The line of the tally; none where no chain was tried.
    pub fn print_line(&self, rt: &impl Print) -> io::Result<()> {
        if self.tally.chains != 0 {
            println!(rt; "{}", self.tally)?;
        }
        Ok(())
    }

    // To go on with a chain of n: the line of another number ends.
    pub fn begin(&mut self, rt: &impl Print, n: u64) -> io::Result<()> {
        if self.tally.n != n {
            self.end(rt)?;
            self.tally.n = n;
        }
        self.tally.chains = self.tally.chains.wrapping_add(1);
        Ok(())
    }

    // The line ends, and a tally of no number begins.
    pub fn end(&mut self, rt: &impl Print) -> io::Result<()> {
        self.print_line(rt)?;
        self.tally = Tally::new(0, 0);
        Ok(())
    }

    // An answer, and the bench after it.
    pub fn note(&mut self, rt: &impl Print, reply: Result<(), Refusal>) -> io::Result<()> {
        print!(rt; "{}", mark(memory::is_kept(&self.bench)))?;
        self.tally.add(number_of(reply.map(|()| 0)));
        self.tally.add(memory::digest_of(&self.bench));
        match reply {
            Ok(()) => self.tally.done = self.tally.done.wrapping_add(1),
            Err(_) => self.tally.refused = self.tally.refused.wrapping_add(1),
        }
        Ok(())
    }

    // A move. Tells whether it is done. The kind is a byte, as the service takes it: bytes that are no kind are tried too.
    pub fn move_chain(&mut self, rt: &impl Print, kind: u8, up: bool, row: u8) -> io::Result<bool> {
        let reply = bench::move_chain(&mut self.bench, kind, up, row);
        self.note(rt, reply)?;
        Ok(reply.is_ok())
    }

    pub fn save(&mut self, rt: &impl Print, name: u8) -> io::Result<()> {
        let reply = bench::save_chain(&mut self.bench, name);
        self.note(rt, reply)
    }

    pub fn come_back(&mut self, rt: &impl Print, name: u8) -> io::Result<()> {
        let reply = bench::come_back(&mut self.bench, name);
        self.note(rt, reply)
    }

    // A walk: how many moves, and how many parts.
    pub fn walk(&mut self, rt: &impl Print) -> io::Result<()> {
        match bench::walk_chain(&mut self.bench) {
            Ok(Walked { moves, k }) => {
                self.tally.add(moves);
                self.tally.add(k);
                self.tally.walked = self.tally.walked.wrapping_add(moves);
                self.note(rt, Ok(()))
            }
            Err(r) => self.note(rt, Err(r)),
        }
    }

    // The present chain told.
    pub fn tell(&mut self, rt: &impl Print) -> io::Result<()> {
        let mut places = [u16::MAX; 70];
        match bench::tell_chain(&self.bench, &mut places) {
            Ok(Told { n, k }) => {
                self.tally.add(n);
                self.tally.add(k);
                self.tally.add(digest_of(&places));
                print!(rt; "{}", mark(are_all(&places, 64, &u16::MAX)))
            }
            Err(r) => {
                self.tally.add(u64::from(u8::from(r)));
                print!(rt; "{}", mark(are_all(&places, 0, &u16::MAX)))
            }
        }
    }
}
