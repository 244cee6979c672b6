// The services, and digests of what they answer.
use best::Chosen;
use refusals::Refusal;
use std::fmt;
use test_choice::{Lent, Question};
use test_kit::{digest_of, mixed, number_of};

// How many parts a chain has, and its price.
#[derive(Clone, Copy)]
pub struct Answer {
    pub k: u64,
    pub price: u64,
}

impl fmt::Display for Answer {
    fn fmt<W: fmt::Write>(&self, f: &mut fmt::Formatter<W>) -> fmt::Result {
        write!(f, "{} {}", self.k, self.price)
    }
}

impl From<Chosen> for Answer {
    fn from(chosen: Chosen) -> Answer {
        Answer {
            k: chosen.k,
            price: chosen.price,
        }
    }
}

pub fn cheapest_chain(asked: Question, lent: &mut Lent<'_>) -> Result<Answer, Refusal> {
    let chosen = limited::cheapest_chain(
        asked.n,
        asked.limits,
        asked.prices,
        lent.scratch,
        lent.places,
    )?;
    Ok(Answer::from(chosen))
}

pub fn choose_chain(asked: Question, lent: &mut Lent<'_>) -> Result<Answer, Refusal> {
    let chosen = best::choose_chain(
        asked.n,
        asked.limits,
        asked.prices,
        lent.scratch,
        lent.places,
    )?;
    Ok(Answer::from(chosen))
}

// How many parts there are: none where the call is refused. test_best has the same of its own answers, which have a position.
pub fn parts_of(found: Result<Answer, Refusal>) -> u64 {
    match found {
        Ok(answer) => answer.k,
        Err(_) => 0,
    }
}

// A digest of the number of parts, the price and the first 64 places, or the number of the refusal.
pub fn digest_of_chain(found: Result<Answer, Refusal>, places: &[u16]) -> u64 {
    match found {
        Ok(answer) => mixed(mixed(digest_of(places), answer.k), answer.price),
        Err(r) => u64::from(u8::from(r)),
    }
}

// How many chains have at most so many parts.
pub fn count_up_to(n: u64, parts: u8, scratch: &mut [u64]) -> u64 {
    number_of(limited::count_up_to(n, parts, scratch))
}

// How many chains there are.
pub fn count_all(n: u64, scratch: &mut [u64]) -> u64 {
    number_of(counting::table_count(n, scratch))
}
