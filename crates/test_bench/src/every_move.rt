// Every move at every row of the present chain, each undone again.
use super::trial::{Trial, print_told};
use std::io;

// The kind, the direction and the row of a move of a small number, and the chain after it.
fn print_move(rt: &impl Print, trial: &Trial, kind: u8, up: bool, row: u8) -> io::Result<()> {
    if trial.tally.n <= 27 {
        print!(rt; " {kind}{}{row} ", if up { "+" } else { "-" })?;
        print_told(rt, &trial.bench)?;
        println!(rt; "")?;
    }
    Ok(())
}

// A move, the chain told, and the move undone.
fn there_and_back(
    rt: &impl Print,
    trial: &mut Trial,
    kind: u8,
    up: bool,
    row: u8,
) -> io::Result<()> {
    if trial.move_chain(rt, kind, up, row)? {
        print_move(rt, trial, kind, up, row)?;
        trial.tell(rt)?;
        trial.move_chain(rt, kind, !up, row)?;
    }
    Ok(())
}

// Kinds 0 and 3 are none.
fn all_kinds(rt: &impl Print, trial: &mut Trial, row: u8) -> io::Result<()> {
    for kind in 0..4 {
        there_and_back(rt, trial, kind, true, row)?;
        there_and_back(rt, trial, kind, false, row)?;
    }
    Ok(())
}

fn print_chain(rt: &impl Print, trial: &Trial) -> io::Result<()> {
    if trial.tally.n <= 27 {
        print_told(rt, &trial.bench)?;
        println!(rt; "")?;
    }
    Ok(())
}

// The rows below `end`, 39, 40, 41, 128 and 255. 128 is 0 modulo 64.
pub fn all_rows(rt: &impl Print, trial: &mut Trial, end: u8) -> io::Result<()> {
    print_chain(rt, trial)?;
    trial.tell(rt)?;
    for row in 0..end {
        all_kinds(rt, trial, row)?;
    }
    for row in [39, 40, 41, 128, 255] {
        all_kinds(rt, trial, row)?;
    }
    Ok(())
}
