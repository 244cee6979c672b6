// What is left in the lent memory.
use super::{asked, calls};
use best::Chosen;
use std::io;
use test_choice::{Lent, Question, at_most};
use test_kit::{Spaced, Told, ends, first};

// Where the zeros of the scratch end, and the ones after them.
fn print_scratch(rt: &impl Print, scratch: &[u64]) -> io::Result<()> {
    let (zeros, ones) = ends(scratch, 0, &0, &u64::MAX);
    print!(rt; " {zeros} {ones}")
}

// The same, and of the places, behind the first k.
fn print_left(rt: &impl Print, k: u64, lent: &Lent<'_>) -> io::Result<()> {
    print_scratch(rt, lent.scratch)?;
    let (zeros, ones) = ends(lent.places, k as usize, &0, &u16::MAX);
    print!(rt; " {zeros} {ones}")
}

// One call.
fn tell_one(rt: &impl Print, asked: Question, lent: &mut Lent<'_>) -> io::Result<()> {
    lent.hold(u64::MAX);
    let found = calls::best_chain(asked, lent);
    calls::print_found(rt, found, lent.places)?;
    print_left(rt, calls::parts_of(found), lent)?;
    println!(rt; "")
}

// Placing, after k parts were chosen.
fn tell_placed(rt: &impl Print, k: u64, lent: &mut Lent<'_>) -> io::Result<()> {
    print!(rt; " {}", Told(calls::place(k, lent)))?;
    print_scratch(rt, lent.scratch)
}

// Two calls.
fn tell_two(rt: &impl Print, asked: Question, lent: &mut Lent<'_>) -> io::Result<()> {
    lent.hold(u64::MAX);
    match calls::choose_chain(asked, lent) {
        Ok(Chosen { k, price }) => {
            print!(rt; "{k} {price}{}", Spaced(first(lent.places, k)))?;
            print_left(rt, k, lent)?;
            tell_placed(rt, k, lent)?;
        }
        Err(r) => {
            print!(rt; "{}", u8::from(r))?;
            print_left(rt, 0, lent)?;
        }
    }
    println!(rt; "")
}

fn tell_left(rt: &impl Print, n: u64, limits: (u8, u8, u8), lent: &mut Lent<'_>) -> io::Result<()> {
    let asked = Question {
        n,
        limits: at_most(limits),
        prices: asked::prices_of(0),
    };
    tell_one(rt, asked, lent)?;
    tell_two(rt, asked, lent)
}

fn tell_edge(rt: &impl Print, n: u64, lent: &mut Lent<'_>) -> io::Result<()> {
    for limits in asked::EDGE_LIMITS {
        tell_left(rt, n, limits, lent)?;
    }
    Ok(())
}

// Eleven numbers under eight limits each.
pub fn tell_edges(rt: &impl Print, lent: &mut Lent<'_>) -> io::Result<()> {
    for n in asked::EDGES {
        tell_edge(rt, n, lent)?;
    }
    Ok(())
}

// The four examples under their own limits.
pub fn tell_examples(rt: &impl Print, lent: &mut Lent<'_>) -> io::Result<()> {
    for (n, limits) in asked::EXAMPLES {
        tell_left(rt, n, limits, lent)?;
    }
    Ok(())
}
