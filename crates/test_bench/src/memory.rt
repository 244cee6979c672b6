// The lent memory: digests of it, and whether it is left as it should be.
use test_kit::{are_all, mixed};

// Nine states of 41 rows, n, eight names, and six numbers that are no part of a bench.
pub type Bench = [u64; 384];

// A digest of a state: a number that is not 0 counts with its index; a 0 counts for nothing.
fn state_digest(state: &[u64]) -> u64 {
    state.iter().enumerate().fold(0, |digest, (i, x)| {
        if *x == 0 {
            digest
        } else {
            mixed(mixed(digest, i as u64), *x)
        }
    })
}

fn states_digest(bench: &Bench) -> u64 {
    bench
        .chunks_exact(41)
        .take(9)
        .fold(0, |digest, state| mixed(digest, state_digest(state)))
}

// Which names are saved counts, not by which number.
fn names_digest(bench: &Bench) -> u64 {
    bench[370..378]
        .iter()
        .fold(0, |digest, name| mixed(digest, (*name != 0) as u64))
}

// n of a bench.
pub fn number_of(bench: &Bench) -> u64 {
    bench[369]
}

// A digest of all states, of n and of the names.
pub fn digest_of(bench: &Bench) -> u64 {
    let states = states_digest(bench);
    mixed(mixed(states, number_of(bench)), names_digest(bench))
}

// The present state.
pub fn present_digest(bench: &Bench) -> u64 {
    state_digest(&bench[..41])
}

// The numbers past the 378th are full of ones.
pub fn is_kept(bench: &Bench) -> bool {
    are_all(bench, 378, &u64::MAX)
}
