// One call of each service, with what it leaves in the lent memory, which is full of ones at each call.
ghost use Rattle.std.specs.Prelude.{◌≤◌, ◌<◌};

use ranking::{Found, Placed};
use refusals::Refusal;
use std::fmt;
use test_kit::are_all;

// The least size of a scratch, as document 02 has it.
const SCRATCH: usize = 512;

// The most that is lent as a scratch.
pub const LARGEST: usize = 5248;

// A chain of n: its position, how many parts it has, and a digest of the 64 places.
#[derive(Clone, Copy, PartialEq)]
pub struct Chain {
    pub n: u64,
    pub position: u64,
    pub k: u64,
    pub digest: u64,
}

impl fmt::Display for Chain {
    fn fmt<W: fmt::Write>(&self, f: &mut fmt::Formatter<W>) -> fmt::Result {
        write!(f, "{} {} {} {}", self.n, self.position, self.k, self.digest)
    }
}

// A number, and the position of a chain of it.
#[derive(Clone, Copy, PartialEq)]
pub struct Place {
    pub n: u64,
    pub position: u64,
}

impl fmt::Display for Place {
    fn fmt<W: fmt::Write>(&self, f: &mut fmt::Formatter<W>) -> fmt::Result {
        write!(f, "{} {}", self.n, self.position)
    }
}

// ---- answers

pub fn chain_in(found: Result<Found, Refusal>, places: &[u16]) -> Result<Chain, Refusal> {
    let Found { n, position, k } = found?;
    let digest = digest_of(places);
    Ok(Chain {
        n,
        position,
        k,
        digest,
    })
}

fn read_record(numbers: &[u16], scratch: &mut [u64]) -> Result<Place, Refusal> {
    let Placed { n, position } = ranking::read_record(numbers, scratch)?;
    Ok(Place { n, position })
}

// How many chains n has.
pub fn count_of(n: u64) -> u64 {
    let mut scratch = [u64::MAX; SCRATCH];
    counting::table_count(n, &mut scratch).unwrap_or(0)
}

// ---- digests

// A digest of the first 64 numbers in their order.
pub fn digest_of<T: Copy>(numbers: &[T]) -> u64
where
    u64: From<T>,
{
    numbers
        .iter()
        .take(64)
        .fold(0, |digest, x| digest_with(digest, u64::from(*x)))
}

// One number more.
fn digest_with(digest: u64, x: u64) -> u64
    ensures { result < 1000000007 }
{
    digest.wrapping_mul(1361).wrapping_add(x).wrapping_add(1) % 1000000007
}

// ---- lent memory

// How many numbers are lent as a scratch, of the most that there are.
#[derive(Clone, Copy)]
pub struct Lent {
    pub size: usize,
    ghost fits: { size ≤ 5248 },
}

impl Lent {
    // How many numbers of the scratch are to be left zero: none where it is too small.
    fn zeroed(self) -> usize {
        if self.size < SCRATCH { 0 } else { SCRATCH }
    }
}

// The first `count` are zero, and the rest is as it was.
fn is_left(scratch: &[u64], count: usize) -> bool {
    scratch
        .iter()
        .enumerate()
        .all(|(i, x)| *x == if i < count { 0 } else { u64::MAX })
}

// What a service gave and left in the places, and whether the memory is as it should be.
#[derive(Clone, Copy)]
pub struct Given {
    pub found: Result<Chain, Refusal>,
    pub places: [u16; 70],
    pub right: bool,
}

// A call that is lent a scratch.
fn lending<F: FnOnce(&mut [u64], &mut [u16]) -> Result<Found, Refusal>>(
    lent: Lent,
    call: F,
) -> Given
    requires { F.IsAlwaysCallable call }
{
    let mut scratch = [u64::MAX; LARGEST];
    let mut places = [u16::MAX; 70];
    let found = call(&mut scratch[..lent.size], &mut places);
    Given {
        found: chain_in(found, &places),
        places,
        right: is_left(&scratch, SCRATCH) & are_all(&places, 64, &u16::MAX),
    }
}

pub fn given_at(n: u64, position: u64, lent: Lent) -> Given {
    lending(lent, |scratch, places| {
        ranking::chain_at(n, position, scratch, places)
    })
}

pub fn given_word(letters: &[u8], lent: Lent) -> Given {
    lending(lent, |scratch, places| {
        ranking::read_word(letters, scratch, places)
    })
}

pub fn given_next(letters: &[u8], lent: Lent) -> Given {
    lending(lent, |scratch, places| {
        ranking::next_chain(letters, scratch, places)
    })
}

// What reading a record told, and what placing it told.
#[derive(Clone, Copy)]
pub struct Told {
    pub read: Result<Place, Refusal>,
    pub placed: Result<u64, Refusal>,
    pub right: bool,
}

pub fn told_record(numbers: &[u16], lent: Lent) -> Told {
    let mut scratch = [u64::MAX; LARGEST];
    let read = read_record(numbers, &mut scratch[..lent.size]);
    let mut other = [u64::MAX; LARGEST];
    let placed = ranking::place_record(numbers, &mut other[..lent.size]);
    Told {
        read,
        placed,
        right: is_left(&scratch, lent.zeroed()) & is_left(&other, lent.zeroed()),
    }
}

// What three services answer to too little lent.
#[derive(Clone, Copy)]
pub struct Refusals {
    pub at: Result<Chain, Refusal>,
    pub word: Result<Chain, Refusal>,
    pub next: Result<Chain, Refusal>,
    pub right: bool,
}

fn refused_by(scratch: &mut [u64], places: &mut [u16]) -> [Result<Chain, Refusal>; 3] {
    let at = ranking::chain_at(19, 3, scratch, places);
    let at = chain_in(at, places);
    let word = ranking::read_word(b"\x03\x02\x00\x03", scratch, places);
    let word = chain_in(word, places);
    let next = ranking::next_chain(b"\x01\x01\x00\x00\x03", scratch, places);
    [at, word, chain_in(next, places)]
}

// The scratch or `count` places are too little: nothing is touched, nor what stands behind them.
pub fn refused_little(lent: Lent, count: usize) -> Refusals
    requires { count ≤ 70 }
{
    let mut scratch = [u64::MAX; LARGEST];
    let mut places = [u16::MAX; 70];
    let [at, word, next] = refused_by(&mut scratch[..lent.size], &mut places[..count]);
    Refusals {
        at,
        word,
        next,
        right: is_left(&scratch, 0) & are_all(&places, 0, &u16::MAX),
    }
}
