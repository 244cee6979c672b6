// Random numbers: the cheapest chains under fewer and fewer parts, and within limits on doublings and triplings one below, at and one
// above what the cheapest chain of all needs.
use super::calls::Answer;
use super::{asked, calls};
use parts::Exponents;
use refusals::Refusal;
use std::io;
use test_choice::{Lent, Question, around, at_most};
use test_kit::Random;

// The number of parts, the price and the digest, or the number of the refusal.
fn tell_within(
    rt: &impl Print,
    asked: Question,
    lent: &mut Lent<'_>,
) -> io::Result<Result<Answer, Refusal>> {
    let found = calls::cheapest_chain(asked, lent);
    match found {
        Ok(answer) => print!(rt; " {answer} {}", calls::digest_of_chain(found, lent.places))?,
        Err(r) => print!(rt; " {}", u8::from(r))?,
    }
    Ok(found)
}

// One part fewer than were found, if there is anything more to ask.
fn one_fewer(found: Result<Answer, Refusal>) -> Option<u8> {
    let k = u8::try_from(found.ok()?.k).unwrap_or(u8::MAX);
    k.checked_sub(1)
}

// The question without limits, and then with one part fewer than were found, as long as there is a chain with parts.
fn tell_falling(rt: &impl Print, asked: Question, lent: &mut Lent<'_>) -> io::Result<()> {
    let mut parts = u8::MAX;
    for _ in 0..66 {
        let limits = at_most((parts, 255, 255));
        match one_fewer(tell_within(rt, Question { limits, ..asked }, lent)?) {
            Some(fewer) => parts = fewer,
            None => break,
        }
    }
    Ok(())
}

// Limits near the exponents of a part.
fn tell_near(
    rt: &impl Print,
    asked: Question,
    i: u64,
    e: Exponents,
    lent: &mut Lent<'_>,
) -> io::Result<()> {
    let doublings = at_most((255, around(e.a, i % 3), 255));
    let triplings = at_most((255, 255, around(e.b, i / 3 % 3)));
    let _ = tell_within(
        rt,
        Question {
            limits: doublings,
            ..asked
        },
        lent,
    )?;
    let _ = tell_within(
        rt,
        Question {
            limits: triplings,
            ..asked
        },
        lent,
    )?;
    Ok(())
}

fn tell_around(
    rt: &impl Print,
    asked: Question,
    i: u64,
    table: &[u64],
    lent: &mut Lent<'_>,
) -> io::Result<()> {
    let _ = tell_within(rt, asked, lent)?;
    let number = lent.places.first().copied().unwrap_or(0);
    let largest = parts::exponents_of(parts::value_of(table, number));
    tell_near(rt, asked, i, largest, lent)
}

fn tell_counts(rt: &impl Print, n: u64, i: u64, scratch: &mut [u64]) -> io::Result<()> {
    let few = calls::count_up_to(n, (i % 40) as u8, scratch);
    let all = calls::count_up_to(n, asked::no_limit(i), scratch);
    println!(rt; " {few} {all}")
}

fn tell_number(
    rt: &impl Print,
    n: u64,
    i: u64,
    table: &[u64],
    lent: &mut Lent<'_>,
) -> io::Result<()> {
    let asked = Question {
        n,
        limits: at_most((255, 255, 255)),
        prices: asked::prices_of(i as usize),
    };
    print!(rt; "{n}")?;
    tell_falling(rt, asked, lent)?;
    tell_around(rt, asked, i, table, lent)?;
    tell_counts(rt, n, i, lent.scratch)
}

pub fn tell_random(rt: &impl Print, table: &[u64], lent: &mut Lent<'_>) -> io::Result<()> {
    for (x, i) in Random::new().zip(0..300) {
        tell_number(rt, x >> (i % 40), i, table, lent)?;
    }
    Ok(())
}
