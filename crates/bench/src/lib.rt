// A bench for moving chains by hand: document 02, T-08. The caller lends the bench as 378 numbers:
//
//     0 to 40       the present chain by rows: bit a of number b is 1 where 2^a × 3^b is a part
//     41 to 368     the chains saved under the names 0 to 7, 41 numbers each
//     369           n
//     370 to 377    for each name 0 if it was never saved, else another number
//
// Every service looks first whether enough is lent (refusal 1). All but opening look next whether the present and each saved state is
// a chain of n (refusal 17). With a refusal the bench is as it was. Numbers after these 378 are never touched: the first 378, or
// the first 41, are lent on as an array.
#![tactic(auto)]

mod amounts;
mod laying;
mod moving;
mod rows;
mod states;
mod telling;
mod walking;

ghost use Rattle.std.specs.Prelude.{◌≡◌, ◌<◌, ◌≤◌, length, Err, MatchResult};
ghost use Rattle.refusals.specs.declared.Refusal.TheVariants.{NoSuchName};
ghost use Rattle.bench.specs.Sound.{Sound};
ghost use Rattle.bench.specs.Benches.{answer_of, bench_left, ready, open_outcome, move_outcome, save_outcome, back_outcome};
ghost use Rattle.bench.specs.Benches.{walked_of, walk_left, told_of, places_left};

use amounts::Kind;
use refusals::Refusal;

// How many numbers a bench has.
pub const BENCH: usize = 378;

// How many rows a chain has: 3^41 is above 2^64.
const ROWS: usize = 41;

// How many names there are.
const NAMES: usize = 8;

// How many places telling a chain asks: a chain of a 64-bit number has at most 64 parts.
const PLACES: usize = 64;

// Where n is.
const NUMBER: usize = 369;

// Where the first name has its number that tells whether it was saved.
const SAVED: usize = 370;

// How many moves a walk made and how many parts the chain has that it ended with.
#[derive(Clone, Copy)]
pub struct Walked {
    pub moves: u64,
    pub k: u64,
}

// The number of a bench and how many parts its present chain has.
#[derive(Clone, Copy)]
pub struct Told {
    pub n: u64,
    pub k: u64,
}

// What every service but opening looks at first. Refuses with 1, then with 17.
fn look(bench: &[u64]) -> Result<(), Refusal>
    ensures { MatchResult result
        (λ _. (378 ≤ length bench.now) × Sound bench.now)
        (λ e. ready bench.now ≡ Err e) }
{
    let Some(first) = bench.first_chunk() else {
        return Err(Refusal::LittleLent);
    };
    if !states::is_sound(first) {
        return Err(Refusal::NoMove);
    }
    Ok(())
}

// The place of a name among the names. Refuses with 18.
fn place_of(name: u8) -> Result<usize, Refusal>
    ensures { MatchResult result (λ i. (i ≡ name) × (name ≤ 7)) (λ e. (e ≡ NoSuchName) × (7 < name)) }
{
    let place = usize::from(name);
    if NAMES <= place {
        return Err(Refusal::NoSuchName);
    }
    Ok(place)
}

// Opens a bench on the chain of a record, with no name saved. Refuses with 1, 8, 9, 10 in that order.
pub fn open_bench(numbers: &[u16], bench: &mut [u64]) -> Result<(), Refusal>
    ensures answer { result ≡ answer_of (open_outcome numbers.now bench.old) }
    ensures bench { bench.new
        ≡ bench_left (open_outcome numbers.now bench.old) bench.old }
{
    let Some(first) = bench.first_chunk_mut() else {
        return Err(Refusal::LittleLent);
    };
    let n = words::judge_record(numbers)?;
    laying::lay_bench(numbers, n, first);
    Ok(())
}

// A move of the present chain: of 003's first or second kind, up or down, at a row. Refuses with 1, then with 17. The kind and the
// row come as bytes, since a caller from C may hand over any byte and gets an answer.
pub fn move_chain(bench: &mut [u64], kind: u8, up: bool, row: u8) -> Result<(), Refusal>
    ensures answer { result ≡ answer_of (move_outcome kind up row bench.old) }
    ensures bench { bench.new ≡ bench_left (move_outcome kind up row bench.old) bench.old }
{
    look(bench)?;
    let kind = Kind::try_from(kind)?;
    moving::move_rows(bench.first_chunk_mut().unwrap(), kind, up, usize::from(row))
}

// Saves the present chain under a name, over what was saved there. Refuses with 1, then 17, then 18.
pub fn save_chain(bench: &mut [u64], name: u8) -> Result<(), Refusal>
    ensures answer { result ≡ answer_of (save_outcome name bench.old) }
    ensures bench { bench.new ≡ bench_left (save_outcome name bench.old) bench.old }
{
    look(bench)?;
    let i = place_of(name)?;
    states::copy_state(bench.first_chunk_mut().unwrap(), 0, i + 1);
    bench[SAVED + i] = 1;
    Ok(())
}

// Comes back to the chain saved under a name. All names stay as they are. Refuses with 1, then 17, then 18.
pub fn come_back(bench: &mut [u64], name: u8) -> Result<(), Refusal>
    ensures answer { result ≡ answer_of (back_outcome name bench.old) }
    ensures bench { bench.new ≡ bench_left (back_outcome name bench.old) bench.old }
{
    look(bench)?;
    let i = place_of(name)?;
    if bench[SAVED + i] == 0 {
        return Err(Refusal::NoSuchName);
    }
    states::copy_state(bench.first_chunk_mut().unwrap(), i + 1, 0);
    Ok(())
}

// Walks the present chain down to the binary one, whose parts are the one bits of n. All names stay as they are. Refuses with 1,
// then 17.
pub fn walk_chain(bench: &mut [u64]) -> Result<Walked, Refusal>
    ensures answer { result ≡ walked_of bench.old }
    ensures bench { bench.new ≡ walk_left bench.old }
{
    look(bench)?;
    let k = u64::from(bench[NUMBER].count_ones());
    let moves = walking::walk_down(bench.first_chunk_mut().unwrap());
    Ok(Walked { moves, k })
}

// Tells the present chain: its part numbers, largest part first, in the first 64 places, then zeros. Refuses with 1, then 17, and
// the places are as they were.
pub fn tell_chain(bench: &[u64], places: &mut [u16]) -> Result<Told, Refusal>
    ensures answer { result ≡ told_of bench.now places.old }
    ensures places { places.new ≡ places_left bench.now places.old }
{
    if places.len() < PLACES {
        return Err(Refusal::LittleLent);
    }
    look(bench)?;
    places[0..PLACES].fill(0);
    let k = telling::tell_rows(bench.first_chunk().unwrap(), places);
    Ok(Told {
        n: bench[NUMBER],
        k,
    })
}
