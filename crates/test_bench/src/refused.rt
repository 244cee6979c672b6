// Benches that the caller spoiled, and too little lent.
//
// A line: what the moves of kinds 1 and 2, up and down, at row 2 answer, then saving under 7 and 8, coming back to 2, 4, 5, 8 and 255,
// the walk with its moves and parts, and the chain told; then a digest of the bench.
use super::memory;
use super::memory::Bench;
use super::trial::{Tally, Trial, print_told};
use bench::{Told, Walked};
use refusals::Refusal;
use std::io;
use test_kit::{are_all, digest_of, mark, number_of};

fn print_reply(rt: &impl Print, reply: Result<(), Refusal>) -> io::Result<()> {
    print!(rt; "{} ", number_of(reply.map(|()| 0)))
}

fn ask_moves(rt: &impl Print, bench: &mut [u64]) -> io::Result<()> {
    for (kind, up) in [(1, true), (1, false), (2, true), (2, false)] {
        print_reply(rt, bench::move_chain(bench, kind, up, 2))?;
    }
    Ok(())
}

fn ask_names(rt: &impl Print, bench: &mut [u64]) -> io::Result<()> {
    for name in [7, 8] {
        print_reply(rt, bench::save_chain(bench, name))?;
    }
    for name in [2, 4, 5, 8, 255] {
        print_reply(rt, bench::come_back(bench, name))?;
    }
    Ok(())
}

fn ask_walk(rt: &impl Print, bench: &mut [u64]) -> io::Result<()> {
    match bench::walk_chain(bench) {
        Ok(Walked { moves, k }) => print!(rt; "0 {moves} {k} "),
        Err(r) => print!(rt; "{} ", u8::from(r)),
    }
}

// Everything that can be asked.
fn ask(rt: &impl Print, bench: &mut [u64]) -> io::Result<()> {
    ask_moves(rt, bench)?;
    ask_names(rt, bench)?;
    ask_walk(rt, bench)?;
    print_told(rt, bench)?;
    print!(rt; " ")
}

fn end_line(rt: &impl Print, bench: &Bench) -> io::Result<()> {
    println!(rt;
        "{}{}",
        memory::digest_of(bench),
        mark(memory::is_kept(bench))
    )
}

fn ask_all_of(rt: &impl Print, bench: &mut Bench) -> io::Result<()> {
    ask(rt, bench)?;
    end_line(rt, bench)
}

// 27 in one part, saved under 2; then 18 and 9, saved under 4.
fn opened() -> Bench {
    let mut bench = [u64::MAX; 384];
    let _ = bench::open_bench(&[11], &mut bench);
    let _ = bench::save_chain(&mut bench, 2);
    let _ = bench::move_chain(&mut bench, 1, false, 2);
    let _ = bench::save_chain(&mut bench, 4);
    bench
}

// A number of the bench replaced.
fn put(bench: &mut Bench, at: usize, x: u64) {
    if let Some(number) = bench.get_mut(at) {
        *number = x;
    }
}

// The same bench with one number replaced.
fn opened_with(at: usize, x: u64) -> Bench {
    let mut bench = opened();
    put(&mut bench, at, x);
    bench
}

// 3^40 times this is 27 modulo 2^64.
const ROW_40: u64 = 2252767720263348411;

// States that the caller replaced, by their first three numbers and the last: other chains of 27, 16 and 9 and 2 which is none, parts
// of 27 with 28, 2^64 + 27 by rows 0 and 1 in two ways, 27 modulo 2^64 by row 40, and rows full of ones.
const STATES: [(u64, u64, u64, u64); 11] = [
    (27, 0, 0, 0),
    (3, 8, 0, 0),
    (18, 0, 1, 0),
    (28, 0, 0, 0),
    (0, 0, 0, 0),
    (1, 6148914691236517214, 0, 0),
    (4611686018427387931, 4611686018427387904, 0, 0),
    (0, 0, 0, ROW_40),
    (0, 0, 3, u64::MAX),
    (u64::MAX, u64::MAX, 0, 0),
    (u64::MAX, u64::MAX, u64::MAX, u64::MAX),
];

// State `s` replaced.
fn opened_with_state(s: usize, state: (u64, u64, u64, u64)) -> Bench {
    let mut bench = opened();
    let start = s % 9 * 41;
    put(&mut bench, start, state.0);
    put(&mut bench, start + 1, state.1);
    put(&mut bench, start + 2, state.2);
    put(&mut bench, start + 40, state.3);
    bench
}

fn spoil_state(rt: &impl Print, s: usize) -> io::Result<()> {
    for state in STATES {
        ask_all_of(rt, &mut opened_with_state(s, state))?;
    }
    Ok(())
}

// One number replaced: row 20 of the present chain, of a saved one and of one never saved; n; then a name's number: one saved, now never;
// one never saved, now saved; one saved by another number.
const NUMBERS: [(usize, u64); 14] = [
    (20, 1),
    (20, u64::MAX),
    (143, 1),
    (266, 1),
    (369, 28),
    (369, 26),
    (369, 0),
    (369, u64::MAX),
    (372, 0),
    (372, u64::MAX),
    (374, 256),
    (375, 1),
    (375, 9223372036854775808),
    (378, u64::MAX),
];

fn spoil_numbers(rt: &impl Print) -> io::Result<()> {
    for (at, x) in NUMBERS {
        ask_all_of(rt, &mut opened_with(at, x))?;
    }
    Ok(())
}

// 27 in one part, saved under every name.
fn opened_full() -> Bench {
    let mut bench = [u64::MAX; 384];
    let _ = bench::open_bench(&[11], &mut bench);
    for name in 0..8 {
        let _ = bench::save_chain(&mut bench, name);
    }
    bench
}

// One bit of a number of the bench changed.
fn flip(bench: &mut Bench, at: usize) {
    if let Some(number) = bench.get_mut(at) {
        *number ^= 1 << (at % 64);
    }
}

// A move that would be done, of a bench with one bit changed.
fn ask_flipped(rt: &impl Print, trial: &mut Trial, at: usize) -> io::Result<()> {
    trial.bench = opened_full();
    flip(&mut trial.bench, at);
    trial.move_chain(rt, 1, false, 2)?;
    Ok(())
}

// Every row of every state, and n. In the last bench no bit is changed.
fn flip_each(rt: &impl Print) -> io::Result<()> {
    let mut trial = Trial::new();
    trial.tally = Tally::new(27, 1);
    for at in 0..370 {
        ask_flipped(rt, &mut trial, at)?;
    }
    ask_flipped(rt, &mut trial, 384)?;
    trial.print_line(rt)
}

// The bench of 0: a name that was never saved, now saved, holds the empty chain.
fn opened_empty(at: usize, x: u64) -> Bench {
    let mut bench = [u64::MAX; 384];
    let _ = bench::open_bench(&[], &mut bench);
    put(&mut bench, at, x);
    bench
}

fn ask_empties(rt: &impl Print) -> io::Result<()> {
    for (at, x) in [(378, u64::MAX), (375, 1), (0, 1), (369, 1), (41, 1)] {
        ask_all_of(rt, &mut opened_empty(at, x))?;
    }
    Ok(())
}

// 2^63 in one part, and then 2^63 in row b, whose value 2^63 × 3^b is 2^63 modulo 2^64.
fn opened_great(b: usize) -> Bench {
    let mut bench = [u64::MAX; 384];
    let _ = bench::open_bench(&[1303], &mut bench);
    put(&mut bench, 0, 0);
    put(&mut bench, b, 9223372036854775808);
    bench
}

fn ask_greats(rt: &impl Print) -> io::Result<()> {
    for b in [0, 1, 2, 40] {
        ask_all_of(rt, &mut opened_great(b))?;
    }
    Ok(())
}

// Everything asked, and to be opened on a good record and on a bad one.
fn ask_opened(rt: &impl Print, bench: &mut [u64]) -> io::Result<()> {
    ask(rt, bench)?;
    print_reply(rt, bench::open_bench(&[11], bench))?;
    print_reply(rt, bench::open_bench(&[0, 1], bench))
}

fn ask_first(rt: &impl Print, size: usize, bench: &mut [u64]) -> io::Result<()> {
    if size <= bench.len() {
        ask_opened(rt, &mut bench[..size])?;
    }
    Ok(())
}

// Only the first `size` numbers lent, of a bench with number `at` replaced.
fn ask_short(rt: &impl Print, size: usize, at: usize, x: u64) -> io::Result<()> {
    let mut bench = opened_with(at, x);
    ask_first(rt, size, &mut bench)?;
    end_line(rt, &bench)
}

fn ask_shorts(rt: &impl Print) -> io::Result<()> {
    ask_short(rt, 377, 378, u64::MAX)?;
    ask_short(rt, 377, 0, 1)?;
    ask_short(rt, 41, 378, u64::MAX)?;
    ask_short(rt, 0, 378, u64::MAX)?;
    ask_short(rt, 378, 378, u64::MAX)?;
    ask_short(rt, 378, 0, 1)
}

fn ask_told(rt: &impl Print, bench: &[u64], places: &mut [u16]) -> io::Result<()> {
    match bench::tell_chain(bench, places) {
        Ok(Told { n, k }) => print!(rt; "{n} {k} "),
        Err(r) => print!(rt; "{} ", u8::from(r)),
    }
}

fn ask_first_places(
    rt: &impl Print,
    bench: &[u64],
    size: usize,
    places: &mut [u16],
) -> io::Result<()> {
    if size <= places.len() {
        ask_told(rt, bench, &mut places[..size])?;
    }
    Ok(())
}

// Places: 63 are too few, 64 enough.
fn ask_places(rt: &impl Print, size: usize, at: usize, x: u64) -> io::Result<()> {
    let bench = opened_with(at, x);
    let mut places = [u16::MAX; 70];
    ask_first_places(rt, &bench, size, &mut places)?;
    let kept = mark(are_all(&places, 64, &u16::MAX));
    print!(rt; "{}{kept} ", digest_of(&places))?;
    end_line(rt, &bench)
}

fn ask_all_places(rt: &impl Print) -> io::Result<()> {
    ask_places(rt, 70, 378, u64::MAX)?;
    ask_places(rt, 64, 378, u64::MAX)?;
    ask_places(rt, 63, 378, u64::MAX)?;
    ask_places(rt, 0, 378, u64::MAX)?;
    ask_places(rt, 70, 0, 1)?;
    ask_places(rt, 63, 0, 1)
}

pub fn tell_all(rt: &impl Print) -> io::Result<()> {
    spoil_numbers(rt)?;
    for s in [0, 5, 6] {
        spoil_state(rt, s)?;
    }
    flip_each(rt)?;
    ask_empties(rt)?;
    ask_greats(rt)?;
    ask_shorts(rt)?;
    ask_all_places(rt)
}
