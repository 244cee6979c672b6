// The walk to the binary chain, by the service and by single moves.
use super::memory;
use super::memory::Bench;
use super::trial::Trial;
use std::io;

// The numbers whose walks by single moves are printed: 3^40, and the one with the longest walk known.
pub fn is_long(n: u64) -> bool {
    (n == 12157665459056928801) | (n == 12358485572361037497)
}

// The highest row with a part, if one above row 0 has any.
fn highest_row(bench: &Bench) -> Option<u8> {
    for row in (1u8..41).rev() {
        if bench[row as usize] != 0 {
            return Some(row);
        }
    }
    None
}

fn print_step(rt: &impl Print, trial: &Trial, aloud: bool, kind: u8, row: u8) -> io::Result<()> {
    if aloud {
        println!(rt; "{kind}-{row} {}", memory::present_digest(&trial.bench))?;
    }
    Ok(())
}

// The move down at a row of the first kind; if it is refused, of the second.
fn step_down(rt: &impl Print, trial: &mut Trial, row: u8, aloud: bool) -> io::Result<()> {
    if trial.move_chain(rt, 1, false, row)? {
        print_step(rt, trial, aloud, 1, row)
    } else {
        trial.move_chain(rt, 2, false, row)?;
        print_step(rt, trial, aloud, 2, row)
    }
}

// A chain has at most 1,280 such moves.
fn walk_by_moves(rt: &impl Print, trial: &mut Trial, aloud: bool) -> io::Result<()> {
    for _ in 0..1300 {
        match highest_row(&trial.bench) {
            Some(row) => step_down(rt, trial, row.wrapping_sub(1), aloud)?,
            None => break,
        }
    }
    Ok(())
}

// The chain is saved and walked down by the service.
fn walk_by_service(rt: &impl Print, trial: &mut Trial, name: u8) -> io::Result<()> {
    trial.save(rt, name)?;
    trial.walk(rt)?;
    trial.tell(rt)
}

// Then it is brought back, walked down by single moves, and brought back.
pub fn both_walks(rt: &impl Print, trial: &mut Trial, aloud: bool) -> io::Result<()> {
    let name = (trial.tally.n % 8) as u8;
    walk_by_service(rt, trial, name)?;
    trial.come_back(rt, name)?;
    walk_by_moves(rt, trial, aloud)?;
    trial.come_back(rt, name)
}
