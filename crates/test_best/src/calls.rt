// The best chain in one call, and in two.
use best::Chosen;
use refusals::Refusal;
use std::{fmt, io};
use test_choice::{Lent, Question};
use test_kit::{Spaced, Told, first};

// A chain's position, how many parts it has, and its price.
#[derive(Clone, Copy, PartialEq)]
pub struct Answer {
    pub position: u64,
    pub k: u64,
    pub price: u64,
}

impl fmt::Display for Answer {
    fn fmt<W: fmt::Write>(&self, f: &mut fmt::Formatter<W>) -> fmt::Result {
        write!(f, "{} {} {}", self.position, self.k, self.price)
    }
}

pub fn best_chain(asked: Question, lent: &mut Lent<'_>) -> Result<Answer, Refusal> {
    let best = best::best_chain(
        asked.n,
        asked.limits,
        asked.prices,
        lent.scratch,
        lent.places,
    )?;
    Ok(Answer {
        position: best.position,
        k: best.k,
        price: best.price,
    })
}

pub fn choose_chain(asked: Question, lent: &mut Lent<'_>) -> Result<Chosen, Refusal> {
    best::choose_chain(
        asked.n,
        asked.limits,
        asked.prices,
        lent.scratch,
        lent.places,
    )
}

// The position of the chain whose part numbers are the first k places. The scratch holds ones at entry.
pub fn place(k: u64, lent: &mut Lent<'_>) -> Result<u64, Refusal> {
    place_first(k, lent.scratch, lent.places)
}

fn place_first(k: u64, scratch: &mut [u64], places: &mut [u16]) -> Result<u64, Refusal> {
    scratch.fill(u64::MAX);
    ranking::place_record(first(places, k), scratch)
}

// What choosing and then placing tell.
pub fn in_two_calls(asked: Question, lent: &mut Lent<'_>) -> Result<Answer, Refusal> {
    let Chosen { k, price } = choose_chain(asked, lent)?;
    let position = place(k, lent)?;
    Ok(Answer { position, k, price })
}

// How many parts there are: none where the call is refused. test_limited has the same of its own answers, which have no position.
pub fn parts_of(found: Result<Answer, Refusal>) -> u64 {
    match found {
        Ok(answer) => answer.k,
        Err(_) => 0,
    }
}

pub fn print_found(
    rt: &impl Print,
    found: Result<Answer, Refusal>,
    places: &[u16],
) -> io::Result<()> {
    print!(rt; "{}{}", Told(found), Spaced(first(places, parts_of(found))))
}

// The best chain in one call, and = where two calls tell the same.
pub fn tell_best(
    rt: &impl Print,
    asked: Question,
    lent: &mut Lent<'_>,
) -> io::Result<Result<Answer, Refusal>> {
    let apart = in_two_calls(asked, lent);
    let found = best_chain(asked, lent);
    print_found(rt, found, lent.places)?;
    println!(rt; "{}", if found == apart { " =" } else { "" })?;
    Ok(found)
}
