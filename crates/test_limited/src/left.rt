// What is left in the lent memory, for a scratch of any length, and for 63, 64 and 70 places.
use super::{asked, calls};
use best::Limits;
use std::io;
use test_choice::{Lent, Question, at_most};
use test_kit::{Spaced, Told, ends, first};

// Where the zeros of the scratch end, and the run of x after them, which it held at entry.
fn print_scratch(rt: &impl Print, scratch: &[u64], x: u64) -> io::Result<()> {
    let (zeros, held) = ends(scratch, 0, &0, &x);
    print!(rt; " {zeros} {held}")
}

// Where the zeros behind the first k places end, and the ones after them.
fn print_places(rt: &impl Print, k: u64, places: &[u16]) -> io::Result<()> {
    let (zeros, ones) = ends(places, k as usize, &0, &u16::MAX);
    print!(rt; " {zeros} {ones}")
}

// The cheapest chain. At entry the scratch holds x and the places hold ones.
fn tell_cheapest(
    rt: &impl Print,
    n: u64,
    limits: Limits,
    x: u64,
    lent: &mut Lent<'_>,
) -> io::Result<()> {
    lent.hold(x);
    let prices = asked::prices_of(0);
    let found = calls::cheapest_chain(Question { n, limits, prices }, lent);
    let k = calls::parts_of(found);
    print!(rt; "{}{}", Told(found), Spaced(first(lent.places, k)))?;
    print_scratch(rt, lent.scratch, x)?;
    print_places(rt, k, lent.places)
}

// The count, likewise.
fn tell_count(
    rt: &impl Print,
    n: u64,
    limits: Limits,
    x: u64,
    scratch: &mut [u64],
) -> io::Result<()> {
    scratch.fill(x);
    print!(rt; " {}", calls::count_up_to(n, limits.parts, scratch))?;
    print_scratch(rt, scratch, x)?;
    println!(rt; "")
}

fn tell_with(
    rt: &impl Print,
    n: u64,
    limits: (u8, u8, u8),
    x: u64,
    lent: &mut Lent<'_>,
) -> io::Result<()> {
    tell_cheapest(rt, n, at_most(limits), x, lent)?;
    tell_count(rt, n, at_most(limits), x, lent.scratch)
}

// The scratch holds full numbers and small ones in turn.
fn held(i: usize) -> u64 {
    if i % 2 == 0 { u64::MAX } else { 1 }
}

// Number i under four limits.
fn tell_number(rt: &impl Print, n: u64, i: usize, lent: &mut Lent<'_>) -> io::Result<()> {
    for (j, limits) in asked::SOME_LIMITS.iter().enumerate() {
        tell_with(rt, n, *limits, held(i % 2 + j), lent)?;
    }
    Ok(())
}

// Sixteen numbers.
fn tell_left(rt: &impl Print, scratch: &mut [u64], places: &mut [u16]) -> io::Result<()> {
    let mut lent = Lent { scratch, places };
    for (i, n) in asked::NUMBERS.iter().enumerate() {
        tell_number(rt, *n, i, &mut lent)?;
    }
    Ok(())
}

// With each number of places.
fn tell_places(rt: &impl Print, scratch: &mut [u64]) -> io::Result<()> {
    tell_left(rt, scratch, &mut [0; 63])?;
    tell_left(rt, scratch, &mut [0; 64])?;
    tell_left(rt, scratch, &mut [0; 70])
}

// With a scratch of `size` numbers.
fn tell_size(rt: &impl Print, size: usize, scratch: &mut [u64]) -> io::Result<()> {
    if size <= scratch.len() {
        tell_places(rt, &mut scratch[..size])?;
    }
    Ok(())
}

pub fn tell_sizes(rt: &impl Print, scratch: &mut [u64]) -> io::Result<()> {
    tell_size(rt, 174719, scratch)?;
    tell_size(rt, 174720, scratch)?;
    tell_size(rt, 174730, scratch)
}
