// Every position of the numbers to 300, and some positions of 64-bit numbers: the chain there, its word, and what reading the word,
// reading the record, placing the record and asking for the next chain answer.
//
// A line has n, the position, how many parts, a digest of the 64 places, how many letters and a digest of the 64 letters; then =
// where reading the word gives the same, = where reading the record tells the same n and position, and = where placing it tells the
// same position; then how many parts the next chain has and a digest of its places, where it is the chain of n at the next position,
// or the refusal. A record that is refused has two numbers, of reading and of placing. A refused position has its
// number alone. Whatever else comes is printed in full. Of 5,248 numbers that are full of ones at each call, 512, 513 or all are
// lent as the scratch; ! stands behind the answer where they, or the places past the 64th, are not left as they should be.
#![tactic(auto)]

mod lines;
mod refused;
mod services;

use std::io;
use test_kit::{Random, Regardless};

// Every position of n, and one past the last.
fn tell_each(rt: &impl Print, n: u64) -> io::Result<()> {
    for position in 0..1000 {
        if !lines::tell(rt, n, position)? {
            break;
        }
    }
    Ok(())
}

// The first position of n, the last, one between them, and one past the last.
fn tell_some(rt: &impl Print, n: u64) -> io::Result<()> {
    let count = services::count_of(n);
    let last = count.wrapping_sub(1);
    for position in [0, last, last / 2, count] {
        let _ = lines::tell(rt, n, position)?;
    }
    Ok(())
}

// The same of n and of its neighbours.
fn tell_around(rt: &impl Print, n: u64) -> io::Result<()> {
    tell_some(rt, n.wrapping_sub(1))?;
    tell_some(rt, n)?;
    tell_some(rt, n.wrapping_add(1))
}

fn tell_powers(rt: &impl Print) -> io::Result<()> {
    for a in 0u32..64 {
        tell_around(rt, 1 << a)?;
    }
    for b in 0..41 {
        tell_around(rt, 3u64.wrapping_pow(b))?;
    }
    Ok(())
}

fn tell_random(rt: &impl Print) -> io::Result<()> {
    for n in Random::new().take(300) {
        tell_some(rt, n)?;
    }
    Ok(())
}

fn tell_all(rt: &impl Print) -> io::Result<()> {
    for n in 0..301 {
        tell_each(rt, n)?;
    }
    tell_some(rt, u64::MAX)?;
    tell_some(rt, 13835058055282163711)?;
    tell_some(rt, 15973999968531146337)?;
    tell_powers(rt)?;
    tell_random(rt)?;
    refused::tell_all(rt)
}

fn main(rt: HostRuntime) {
    let _ = tell_all(&Regardless(&rt));
}
