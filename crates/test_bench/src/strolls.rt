// Strolls: moves, saves, returns and walks as a generator chooses them.
use super::memory::Bench;
use super::trial::{Tally, Trial};
use std::io;
use test_kit::{Random, mixed};

// The first row from `row` on that has a part.
fn row_from(bench: &Bench, row: u8) -> Option<u8> {
    for b in row..41 {
        if bench[b as usize] != 0 {
            return Some(b);
        }
    }
    None
}

// The same, or else the lowest row that has a part; 41 where there is none.
fn row_near(bench: &Bench, row: u8) -> u8 {
    row_from(bench, row).or(row_from(bench, 0)).unwrap_or(41)
}

// A row where a move may be: one with a part, or for a move down the row below it. Now and then any row.
fn row_of(bench: &Bench, x: u64, up: bool) -> u8 {
    let any = (x % 41) as u8;
    if x / 41 % 8 == 0 {
        any
    } else if up {
        row_near(bench, any)
    } else {
        row_near(bench, any).wrapping_sub(1)
    }
}

// Mostly 1 and 2.
fn kind_of(x: u64) -> u8 {
    match x % 16 {
        0 => 0,
        1 => 3,
        2 => 255,
        _ => (1 + x % 2) as u8,
    }
}

fn step_move(rt: &impl Print, trial: &mut Trial, x: u64) -> io::Result<()> {
    let up = (x >> 16) % 2 == 1;
    let row = row_of(&trial.bench, x >> 24, up);
    trial.move_chain(rt, kind_of(x >> 8), up, row)?;
    Ok(())
}

// The names 0 to 8: nothing is ever saved under 8.
fn name_of(x: u64) -> u8 {
    (x % 9) as u8
}

// A walk now and then; else the chain is told.
fn step_walk(rt: &impl Print, trial: &mut Trial, x: u64) -> io::Result<()> {
    if x % 8 == 0 {
        trial.walk(rt)
    } else {
        trial.tell(rt)
    }
}

fn step(rt: &impl Print, trial: &mut Trial, x: u64) -> io::Result<()> {
    match x % 32 {
        0 => trial.save(rt, name_of(x >> 8)),
        1 => trial.come_back(rt, name_of(x >> 8)),
        2 => step_walk(rt, trial, x >> 8),
        _ => step_move(rt, trial, x),
    }
}

// 500 steps, and a line.
fn steps(rt: &impl Print, trial: &mut Trial, start: u64) -> io::Result<()> {
    for x in (Random { last: start }).take(500) {
        step(rt, trial, x)?;
    }
    println!(rt; " {}", trial.tally)
}

// From the present chain of n, with whatever is saved.
pub fn stroll(rt: &impl Print, trial: &mut Trial, n: u64) -> io::Result<()> {
    trial.tally = Tally::new(n, 1);
    for _ in 0..8 {
        steps(rt, trial, mixed(trial.tally.digest, n))?;
    }
    Ok(())
}
