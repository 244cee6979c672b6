// Finding a chain or its position in the list of n, on a lent scratch.
#![tactic(auto)]

mod giving;

ghost use Rattle.std.specs.Prelude.{◌≡◌};
ghost use Rattle.lent.specs.Lent.{little_scratch, too_little, scratch_left};
ghost use Rattle.ranking.specs.Services.{lent, answer_of, places_left, at_position, of_word, next_of};
ghost use Rattle.ranking.specs.Services.{of_record, placed_of, position_of, lent_scratch};

use refusals::Refusal;

// The number that a record's chain sums to and the chain's position in its list.
#[derive(Clone, Copy)]
pub struct Placed {
    pub n: u64,
    pub position: u64,
}

// A chain that was found, its parts in the places: its number, its position in the list and how many parts it has.
#[derive(Clone, Copy)]
pub struct Found {
    pub n: u64,
    pub position: u64,
    pub k: u64,
}

// Reading a record: n and position of the chain whose part numbers are `numbers`, largest part first.
// Refuses with 1, 8, 9, 10 in that order.
pub fn read_record(numbers: &[u16], scratch: &mut [u64]) -> Result<Placed, Refusal>
    ensures answer { result ≡ placed_of (lent_scratch scratch.old (of_record numbers.now)) }
    ensures scratch { scratch.new
        ≡ scratch_left (little_scratch scratch.old) scratch.old }
{
    let Some(scratch) = scratch.first_chunk_mut::<{ lent::SCRATCH }>() else {
        return Err(Refusal::LittleLent);
    };
    match words::pack_word(numbers) {
        Ok(word) => giving::place(word.n, word.rises, scratch),
        Err(refusal) => giving::refuse(refusal, scratch),
    }
}

// Placing: the position of the chain whose part numbers are `numbers`, largest part first, in the list of the number that the parts
// sum to. It takes what `read_record` takes, refuses with 1, 8, 9, 10 in that order, and leaves the scratch in the same way.
pub fn place_record(numbers: &[u16], scratch: &mut [u64]) -> Result<u64, Refusal>
    ensures answer { result ≡ position_of (lent_scratch scratch.old (of_record numbers.now)) }
    ensures scratch { scratch.new
        ≡ scratch_left (little_scratch scratch.old) scratch.old }
{
    let placed = read_record(numbers, scratch)?;
    Ok(placed.position)
}

// Reading a word: n, position and number of parts of its chain; the part numbers in the places. Refuses with 1, 7, 10 in that
// order.
pub fn read_word(letters: &[u8], scratch: &mut [u64], places: &mut [u16]) -> Result<Found, Refusal>
    ensures answer { result ≡ answer_of (lent scratch.old places.old (of_word letters.now)) }
    ensures places { places.new
        ≡ places_left (lent scratch.old places.old (of_word letters.now)) places.old }
    ensures scratch { scratch.new
        ≡ scratch_left (too_little 64 scratch.old places.old) scratch.old }
{
    let Some(scratch) = scratch.first_chunk_mut::<{ lent::SCRATCH }>() else {
        return Err(Refusal::LittleLent);
    };
    let Some(places) = places.first_chunk_mut::<64>() else {
        return Err(Refusal::LittleLent);
    };
    match words::pack_letters(letters) {
        Ok(word) => giving::give_word(word.n, word.rises, word.marks, scratch, places),
        Err(refusal) => giving::refuse(refusal, scratch),
    }
}

// The chain at a position of the list of n, from 0; the part numbers in the places. Refuses with 1, and with 6 past the count.
pub fn chain_at(
    n: u64,
    position: u64,
    scratch: &mut [u64],
    places: &mut [u16],
) -> Result<Found, Refusal>
    ensures answer { result ≡ answer_of (lent scratch.old places.old (at_position n position)) }
    ensures places { places.new
        ≡ places_left (lent scratch.old places.old (at_position n position)) places.old }
    ensures scratch { scratch.new
        ≡ scratch_left (too_little 64 scratch.old places.old) scratch.old }
{
    let Some(scratch) = scratch.first_chunk_mut::<{ lent::SCRATCH }>() else {
        return Err(Refusal::LittleLent);
    };
    let Some(places) = places.first_chunk_mut::<64>() else {
        return Err(Refusal::LittleLent);
    };
    let listed = counting::word_at(n, position, scratch)?;
    giving::give_listed(n, listed, Refusal::NoSuchPosition, places)
}

// The chain after a word's in its list; the part numbers in the places. Refuses with 1, 7, 10 in that order, then with 11 where the
// word's chain is the last.
pub fn next_chain(letters: &[u8], scratch: &mut [u64], places: &mut [u16]) -> Result<Found, Refusal>
    ensures answer { result
        ≡ answer_of (lent scratch.old places.old (next_of (of_word letters.now))) }
    ensures places { places.new
        ≡ places_left (lent scratch.old places.old (next_of (of_word letters.now)))
        places.old }
    ensures scratch { scratch.new
        ≡ scratch_left (too_little 64 scratch.old places.old) scratch.old }
{
    let Some(scratch) = scratch.first_chunk_mut::<{ lent::SCRATCH }>() else {
        return Err(Refusal::LittleLent);
    };
    let Some(places) = places.first_chunk_mut::<64>() else {
        return Err(Refusal::LittleLent);
    };
    match words::pack_letters(letters) {
        Ok(word) => giving::give_after(word.n, word.rises, scratch, places),
        Err(refusal) => giving::refuse(refusal, scratch),
    }
}
