// The bench: every move at every row of every chain of 0 to 300; the same of chains of 64-bit numbers, each with a stroll of 4,000
// moves, saves, returns and walks; all walks, by the service and by single moves; records that are refused; benches that the caller
// spoiled; too little lent.
//
// Standard input has a record a line, part numbers in decimal with a space between them. A bench of 384 numbers, full of ones at the
// start, is opened on each record in turn. ! stands in the output where numbers past the 378th, or places past the 64th, are not left
// as they were.
//
// A line for a number to 300: n, its chains, how many calls did what they were asked, how many were refused, the moves of all
// walks, and a digest of every answer and of the whole bench after each call. For the numbers to 27 each move is told before it: the
// chain, the kind, + for up or - for down, the row, the chain after it. Chains of 64-bit numbers have a line each, and lines of their
// stroll. A refused record has the refusal and a digest of the bench.
#![tactic(auto)]

mod every_move;
mod memory;
mod refused;
mod strolls;
mod trial;
mod walks;

use refusals::Refusal;
use std::io;
use test_kit::{Record, Regardless, mark, read_block};
use trial::Trial;

// A chain of a number to 300: it is added to the tally of its number.
fn try_small(rt: &impl Print, trial: &mut Trial, n: u64) -> io::Result<()> {
    trial.begin(rt, n)?;
    every_move::all_rows(rt, trial, 8)?;
    walks::both_walks(rt, trial, false)
}

// A chain of a larger number.
fn try_large(rt: &impl Print, trial: &mut Trial, n: u64) -> io::Result<()> {
    trial.begin(rt, n)?;
    every_move::all_rows(rt, trial, 39)?;
    walks::both_walks(rt, trial, walks::is_long(n))?;
    trial.end(rt)?;
    strolls::stroll(rt, trial, n)?;
    trial.tally = trial::Tally::new(0, 0);
    Ok(())
}

fn try_chain(rt: &impl Print, trial: &mut Trial, n: u64) -> io::Result<()> {
    if n <= 300 {
        try_small(rt, trial, n)
    } else {
        try_large(rt, trial, n)
    }
}

// A refused record: the refusal, and a digest of the bench.
fn tell_refused(rt: &impl Print, trial: &mut Trial, refusal: Refusal) -> io::Result<()> {
    trial.end(rt)?;
    let kept = mark(memory::is_kept(&trial.bench));
    println!(rt;
        "{} {}{kept}",
        u8::from(refusal),
        memory::digest_of(&trial.bench)
    )
}

fn try_record(rt: &impl Print, trial: &mut Trial, numbers: &[u16]) -> io::Result<()> {
    match bench::open_bench(numbers, &mut trial.bench) {
        Ok(()) => {
            let n = memory::number_of(&trial.bench);
            try_chain(rt, trial, n)
        }
        Err(r) => tell_refused(rt, trial, r),
    }
}

fn try_lines(rt: &impl Print, trial: &mut Trial, text: &[u8]) -> io::Result<()> {
    let mut record = Record::<66>::new();
    for c in text {
        match *c {
            b'\n' => {
                try_record(rt, trial, record.numbers())?;
                record = Record::new();
            }
            c => record.read(c),
        }
    }
    Ok(())
}

fn tell_all(rt: &impl Print, text: &[u8]) -> io::Result<()> {
    let mut trial = Trial::new();
    try_lines(rt, &mut trial, text)?;
    trial.end(rt)?;
    println!(rt; "refusals")?;
    refused::tell_all(rt)
}

// The first 65,536 characters of the input are read.
fn main(rt: HostRuntime) {
    let mut text = [0; 65536];
    let n = read_block(&mut rt.stdin(), &mut text);
    let _ = tell_all(&Regardless(&rt), &text[..n]);
}
