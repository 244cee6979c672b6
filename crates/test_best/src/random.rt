// A thousand 64-bit numbers, with no limit and with limits near what the best chain needs.
use super::calls::Answer;
use super::{asked, calls};
use best::Limits;
use std::io;
use test_choice::{Lent, Question, around, at_most};
use test_kit::{Random, Told};

// Limits on parts one below what the chain in the places needs, at it and one above it; then one on doublings and one on triplings.
fn near_limits(answer: Answer, i: u64, table: &[u64], places: &[u16]) -> [Limits; 5] {
    let number = places.first().copied().unwrap_or(0);
    let largest = parts::exponents_of(parts::value_of(table, number));
    [
        at_most((around(answer.k, 0), 255, 255)),
        at_most((around(answer.k, 1), 255, 255)),
        at_most((around(answer.k, 2), 255, 255)),
        at_most((255, around(largest.a, i % 3), 255)),
        at_most((255, 255, around(largest.b, i / 3 % 3))),
    ]
}

// What is found under a limit, or = where that is what was found without.
fn tell_limited(
    rt: &impl Print,
    asked: Question,
    position: u64,
    lent: &mut Lent<'_>,
) -> io::Result<()> {
    match calls::in_two_calls(asked, lent) {
        Ok(answer) if answer.position == position => print!(rt; "= "),
        found => print!(rt; "{} ", Told(found)),
    }
}

fn tell_near(
    rt: &impl Print,
    asked: Question,
    position: u64,
    near: [Limits; 5],
    lent: &mut Lent<'_>,
) -> io::Result<()> {
    for limits in near {
        tell_limited(rt, Question { limits, ..asked }, position, lent)?;
    }
    println!(rt; "")
}

fn tell_around(
    rt: &impl Print,
    n: u64,
    i: u64,
    table: &[u64],
    lent: &mut Lent<'_>,
) -> io::Result<()> {
    let asked = Question {
        n,
        limits: at_most(asked::ANY),
        prices: asked::prices_of(i as usize),
    };
    if let Ok(answer) = calls::tell_best(rt, asked, lent)? {
        let near = near_limits(answer, i, table, lent.places);
        tell_near(rt, asked, answer.position, near, lent)?;
    }
    Ok(())
}

pub fn tell_random(rt: &impl Print, table: &[u64], lent: &mut Lent<'_>) -> io::Result<()> {
    for (n, i) in Random::new().zip(0..1000) {
        tell_around(rt, n, i, table, lent)?;
    }
    Ok(())
}
