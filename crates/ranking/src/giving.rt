// The steps of the services once it is known that enough is lent. A word comes here in two numbers, a bit a letter. It is known to
// stand in the list of its number, and none of these calls judges or weighs it again.
ghost use Rattle.std.specs.Prelude.{◌≡◌, ℕ, ◌+◌};
ghost use mathlib.Core.List.{Memᴰ};
ghost use Rattle.chains.specs.Words.{Word};
ghost use Rattle.chains.specs.Listing.{list_of, count_before, chain_at};
ghost use Rattle.lent.specs.Lent.{zeros, scratch_size};
ghost use Rattle.words.specs.Packed.{bits, rise};
ghost use Rattle.refusals.specs.declared.Refusal.TheVariants.{LastOfList};
ghost use Rattle.counting.specs.Ranked.{listed_at};
ghost use Rattle.ranking.specs.Services.{gives, standing};
ghost use Rattle.ranking.specs.Giving.{placed_at, TwoNumbers, At, Given};

use super::{Found, Placed};
use counting::Listed;
use refusals::Refusal;

// A refusal; the scratch is zeroed as on success.
pub fn refuse<T>(refusal: Refusal, scratch: &mut [u64; lent::SCRATCH]) -> Result<T, Refusal>
    ensures value { result ≡ Err refusal }
    ensures scratch_after { scratch.new ≡ zeros scratch_size }
{
    lent::clear_scratch(scratch);
    Err(refusal)
}

// The position of the word of n in which b rises where `rises` says.
pub fn place(n: u64, rises: u64, scratch: &mut [u64; lent::SCRATCH]) -> Result<Placed, Refusal>
    ensures value { (w : Word) → Memᴰ w (list_of n) → rises ≡ bits rise w → result ≡ placed_at n w }
    ensures scratch_after { scratch.new ≡ zeros scratch_size }
{
    let position = counting::position_of(n, rises, scratch)?;
    Ok(Placed { n, position })
}

// The chain at a position of the list of n, whose word is told: the numbers of its parts go to the places.
fn give_parts(n: u64, position: u64, rises: u64, marks: u64, places: &mut [u16; 64]) -> Found
    ensures { At n position rises marks → Given (gives n (chain_at n position)) (Ok result) places.old places.new }
{
    let k = words::put_parts(rises, marks, places);
    Found { n, position, k }
}

// The chain of a word of the list of n, or the refusal `past` where the list has ended.
pub fn give_listed(
    n: u64,
    listed: Option<Listed>,
    past: Refusal,
    places: &mut [u16; 64],
) -> Result<Found, Refusal>
    ensures { (i : ℕ) → listed ≡ listed_at n i → Given (standing past n i) result places.old places.new }
{
    let word = listed.ok_or(past)?;
    Ok(give_parts(n, word.position, word.rises, word.marks, places))
}

// The chain of a word of n.
pub fn give_word(
    n: u64,
    rises: u64,
    marks: u64,
    scratch: &mut [u64; lent::SCRATCH],
    places: &mut [u16; 64],
) -> Result<Found, Refusal>
    ensures given { (w : Word) → TwoNumbers n w rises marks
        → Given (gives n (chain_at n (count_before w (list_of n)))) result places.old places.new }
    ensures scratch_after { scratch.new ≡ zeros scratch_size }
{
    let position = counting::position_of(n, rises, scratch)?;
    Ok(give_parts(n, position, rises, marks, places))
}

// The chain after that of the word of n in which b rises where `rises` says; refused with 11 where it is the last.
pub fn give_after(
    n: u64,
    rises: u64,
    scratch: &mut [u64; lent::SCRATCH],
    places: &mut [u16; 64],
) -> Result<Found, Refusal>
    ensures given { (w : Word) → Memᴰ w (list_of n) → rises ≡ bits rise w
        → Given (standing LastOfList n (count_before w (list_of n) + 1)) result places.old places.new }
    ensures scratch_after { scratch.new ≡ zeros scratch_size }
{
    let listed = counting::word_after(n, rises, scratch)?;
    give_listed(n, listed, Refusal::LastOfList, places)
}
