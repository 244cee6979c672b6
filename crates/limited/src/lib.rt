// Chains within a limit on their parts: the cheapest one, and how many there are (document 02, T-10).
//
// Both services fill a table in the memory that they are lent: a block of numbers at each of the 1,344 points, one for each reader and
// each number of parts that are still allowed there (specs/Table.antt).
#![tactic(auto)]

mod choosing;
mod table;
mod walk;

ghost use Rattle.std.specs.Prelude.{◌≡◌};
ghost use Rattle.chains.specs.Best.{price};
ghost use Rattle.lent.specs.Lent.{fewer, too_few, memory_left};
ghost use Rattle.ranking.specs.Services.{lent_of, places_left};
ghost use Rattle.best.specs.Chosen.{limits_of, prices_of, chosen_of};
ghost use Rattle.limited.specs.Services.{table_size, cheapest_outcome, counted_up_to};

use best::{Chosen, Limits, Prices};
use refusals::Refusal;

// How many numbers both services must be lent (`table_size` in specs/Services.antt).
pub const TABLE: usize = 174720;

// The cheapest chain of n within the limits: the lowest price, then the fewest parts, then the earliest position. It tells the number of
// its parts and its price; the part numbers are in the places. The number 0 has the empty chain, within any limits.
//
// Lent at least `TABLE` numbers and 64 places or more, with any contents. Refuses with 1 where less is lent, and nothing is touched; with
// 5 where no chain is within the limits, and the places are as they were. Otherwise the places behind the part numbers are zero up to
// 64. With every answer but 1 the first `TABLE` numbers are zero.
pub fn cheapest_chain(
    n: u64,
    limits: Limits,
    prices: Prices,
    scratch: &mut [u64],
    places: &mut [u16],
) -> Result<Chosen, Refusal>
    ensures answer { result
        ≡ chosen_of (price (prices_of prices))
        (lent_of table_size scratch.old places.old (cheapest_outcome n (limits_of limits) (price (prices_of prices)))) }
    ensures places { places.new
        ≡ places_left
        (lent_of table_size scratch.old places.old (cheapest_outcome n (limits_of limits) (price (prices_of prices))))
        places.old }
    ensures scratch { scratch.new
        ≡ memory_left table_size (too_few table_size 64 scratch.old places.old) scratch.old }
{
    if places.len() < 64 {
        return Err(Refusal::LittleLent);
    }
    let Some(first) = scratch.first_chunk_mut::<TABLE>() else {
        return Err(Refusal::LittleLent);
    };
    let choice = choosing::choose(n, limits, prices, first);
    lent::clear_first(first, TABLE);
    best::tell_choice(choice, places)
}

// How many chains of n have at most `parts` parts: 0 where there is none. The number 0 has one, the empty chain.
//
// Lent at least `TABLE` numbers, with any contents. Refuses with 1 where fewer are lent, and nothing is touched. Otherwise the first
// `TABLE` numbers are zero.
pub fn count_up_to(n: u64, parts: u8, scratch: &mut [u64]) -> Result<u64, Refusal>
    ensures answer { result ≡ counted_up_to parts n scratch.old }
    ensures scratch { scratch.new
        ≡ memory_left table_size (fewer table_size scratch.old) scratch.old }
{
    let Some(first) = scratch.first_chunk_mut::<TABLE>() else {
        return Err(Refusal::LittleLent);
    };
    let count = choosing::count(n, parts, first);
    lent::clear_first(first, TABLE);
    Ok(count)
}
