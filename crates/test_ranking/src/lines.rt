// The lines for the positions of a number.
use super::services;
use super::services::{Chain, Lent, Place};
use refusals::Refusal;
use std::{fmt, io};
use test_kit::{Told, first, mark};

// What was told: = where it is what was expected.
#[derive(Clone, Copy)]
struct Beside<T> {
    told: Result<T, Refusal>,
    expected: T,
}

impl<T: fmt::Display + PartialEq> fmt::Display for Beside<T> {
    fn fmt<W: fmt::Write>(&self, f: &mut fmt::Formatter<W>) -> fmt::Result {
        match &self.told {
            Ok(value) if *value == self.expected => f.write_str("="),
            Ok(value) => value.fmt(f),
            Err(r) => u8::from(*r).fmt(f),
        }
    }
}

// What is lent for n: the least for most n, one number more, or all.
fn lent_for(n: u64) -> Lent {
    match n % 8 {
        1 => Lent { size: 513 },
        3 => Lent {
            size: services::LARGEST,
        },
        _ => Lent { size: 512 },
    }
}

// The word read: = where it gives the chain.
fn tell_word(rt: &impl Print, letters: &[u8], chain: Chain) -> io::Result<()> {
    let given = services::given_word(letters, lent_for(chain.n));
    let told = Beside {
        told: given.found,
        expected: chain,
    };
    print!(rt; "{told} {}", mark(given.right))
}

// The next chain: parts and digest where it is the one of n at the next position.
pub fn tell_next(rt: &impl Print, letters: &[u8], next: Place, lent: Lent) -> io::Result<()> {
    let given = services::given_next(letters, lent);
    match given.found {
        Ok(chain) if (chain.n == next.n) & (chain.position == next.position) => {
            print!(rt; "{} {} ", chain.k, chain.digest)?
        }
        found => print!(rt; "{} ", Told(found))?,
    }
    print!(rt; "{}", mark(given.right))
}

// The record read, and placed: = where it is at the place.
pub fn tell_record(rt: &impl Print, numbers: &[u16], place: Place, lent: Lent) -> io::Result<()> {
    let told = services::told_record(numbers, lent);
    let read = Beside {
        told: told.read,
        expected: place,
    };
    let placed = Beside {
        told: told.placed,
        expected: place.position,
    };
    print!(rt; "{read} {placed} {}", mark(told.right))
}

// What the services answer to the word and the record of a chain.
fn tell_back(rt: &impl Print, chain: Chain, letters: &[u8], numbers: &[u16]) -> io::Result<()> {
    let Chain { n, position, .. } = chain;
    let next = position.wrapping_add(1);
    tell_word(rt, letters, chain)?;
    tell_record(rt, numbers, Place { n, position }, lent_for(n))?;
    tell_next(rt, letters, Place { n, position: next }, lent_for(n))
}

// A chain with its record.
fn tell_chain(rt: &impl Print, chain: Chain, numbers: &[u16]) -> io::Result<()> {
    print!(rt; "{chain} ")?;
    let mut letters = [0; 64];
    match words::write_word(numbers, &mut letters) {
        Ok(length) => {
            print!(rt; "{length} {} ", services::digest_of(&letters))?;
            tell_back(rt, chain, first(&letters, length), numbers)
        }
        Err(r) => print!(rt; "{}", u8::from(r)),
    }
}

// A line for a position of n. Tells whether there is a chain.
pub fn tell(rt: &impl Print, n: u64, position: u64) -> io::Result<bool> {
    let given = services::given_at(n, position, lent_for(n));
    match given.found {
        Ok(chain) => tell_chain(rt, chain, first(&given.places, chain.k))?,
        Err(r) => print!(rt; "{}", u8::from(r))?,
    }
    println!(rt; "{}", mark(given.right))?;
    Ok(given.found.is_ok())
}
