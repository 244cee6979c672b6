// The best chain within limits: the fewest parts, then the lowest price, then the earliest position. Choosing it and telling its
// position are two services; the second is `ranking::place_record`.
#![tactic(auto)]

mod choosing;
mod keys;
mod terms;
mod walk;

ghost use Rattle.std.specs.Prelude.{◌≡◌};
ghost use Rattle.chains.specs.Best.{price};
ghost use Rattle.lent.specs.Lent.{too_little, scratch_left};
ghost use Rattle.ranking.specs.Services.{lent, places_left};
ghost use Rattle.best.specs.Chosen.{limits_of, prices_of, best_outcome, chosen_of, best_of};
ghost use Rattle.best.specs.Choosing.{told_of, told_places};

use refusals::Refusal;
pub use terms::{Priced, Terms};

// The limits on a chain: how many parts, doublings and triplings it may have. Values above 64, 63 and 40 exclude nothing.
#[derive(Clone, Copy)]
pub struct Limits {
    pub parts: u8,
    pub doublings: u8,
    pub triplings: u8,
}

// The prices of a doubling, of a tripling, of an addition at a point with letter 1 (document 02's s2) and of one at a point with
// letter 3 that is not the last (s3). When the chain is run, the first comes right after a doubling and the second after a tripling.
#[derive(Clone, Copy)]
pub struct Prices {
    pub doubling: u16,
    pub tripling: u16,
    pub addition_2: u16,
    pub addition_3: u16,
}

// The chosen chain, its parts in the places: how many they are and its price.
#[derive(Clone, Copy)]
pub struct Chosen {
    pub k: u64,
    pub price: u64,
}

// The same with the chain's position in the whole list of n.
#[derive(Clone, Copy)]
pub struct Best {
    pub position: u64,
    pub k: u64,
    pub price: u64,
}

// Tells a choice: the part numbers of the chosen word are put in the places, or it is refused with 5, and the places are as they were.
// Both `choose_chain` and `limited::cheapest_chain` end so. In fewer places than 64 nothing is put.
pub fn tell_choice(choice: Option<Priced>, places: &mut [u16]) -> Result<Chosen, Refusal>
    ensures answer { result ≡ told_of choice }
    ensures places { places.new ≡ told_places choice places.old }
{
    let Priced { word, price } = choice.ok_or(Refusal::NoChainFits)?;
    let k = words::put_parts(word.rises, word.marks, places);
    Ok(Chosen { k, price })
}

// Choosing: the best chain of n within the limits and by the prices. It tells the number of its parts and its price; the part
// numbers are in the places. The number 0 has the empty chain, within any limits.
//
// Lent a scratch of at least `lent::SCRATCH` numbers and 64 places or more, with any contents. Refuses with 1 where less is lent,
// and nothing is touched; with 5 where no chain is within the limits, and the places are as they were. Otherwise the places behind
// the part numbers are zero up to 64. With every answer but 1 the first `lent::SCRATCH` numbers of the scratch are zero.
pub fn choose_chain(
    n: u64,
    limits: Limits,
    prices: Prices,
    scratch: &mut [u64],
    places: &mut [u16],
) -> Result<Chosen, Refusal>
    ensures answer { result
        ≡ chosen_of (price (prices_of prices))
        (lent scratch.old places.old (best_outcome n (limits_of limits) (price (prices_of prices)))) }
    ensures places { places.new
        ≡ places_left
        (lent scratch.old places.old (best_outcome n (limits_of limits) (price (prices_of prices))))
        places.old }
    ensures scratch { scratch.new
        ≡ scratch_left (too_little 64 scratch.old places.old) scratch.old }
{
    if places.len() < 64 {
        return Err(Refusal::LittleLent);
    }
    let Some(first) = scratch.first_chunk_mut() else {
        return Err(Refusal::LittleLent);
    };
    let choice = choosing::choose(n, limits, prices, first);
    lent::clear_scratch(first);
    tell_choice(choice, places)
}

// The best chain with its position: `choose_chain` finds it, and `ranking::place_record` tells the position of the parts that it left
// in the places. What is lent, refused and left behind is as for `choose_chain`.
pub fn best_chain(
    n: u64,
    limits: Limits,
    prices: Prices,
    scratch: &mut [u64],
    places: &mut [u16],
) -> Result<Best, Refusal>
    ensures answer { result
        ≡ best_of (price (prices_of prices))
        (lent scratch.old places.old (best_outcome n (limits_of limits) (price (prices_of prices)))) }
    ensures places { places.new
        ≡ places_left
        (lent scratch.old places.old (best_outcome n (limits_of limits) (price (prices_of prices))))
        places.old }
    ensures scratch { scratch.new
        ≡ scratch_left (too_little 64 scratch.old places.old) scratch.old }
{
    let Chosen { k, price } = choose_chain(n, limits, prices, scratch, places)?;
    let position = ranking::place_record(&places[..k as usize], scratch)?;
    Ok(Best { position, k, price })
}
