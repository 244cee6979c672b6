// The best chain of 0 to 400 under twelve limits and prices each; of a thousand 64-bit numbers, with no limit and with limits one
// below, at and one above what the best chain needs; of numbers at the edges, with what is left in the lent memory, for a scratch of
// 512 numbers, of 513 and of 5,248; and with too little lent. Each in one call, and in two, by choosing and placing.
//
// A line: the position, the number of parts, the price and the part numbers, or the number of the refusal; then = where the two calls
// tell the same position, number of parts and price, or the same refusal. With limits one below, at and one above, only the two calls
// are told. Where the lent memory is looked at, it holds only ones at entry, and the line goes on with where the zeros that the
// scratch begins with end, where the ones that follow them end, and the same of the places behind the parts. Then a second line tells
// the two calls apart: the number of parts, the price and the part numbers that were chosen, with what is left, and the position with
// what is left in the scratch.
#![tactic(auto)]

mod asked;
mod calls;
mod left;
mod random;
mod small;

use std::io;
use test_choice::Lent;
use test_kit::Regardless;

fn main(rt: HostRuntime) {
    let _ = tell_all(&Regardless(&rt));
}

fn tell_all(rt: &impl Print) -> io::Result<()> {
    let table = parts::table::copy();
    let mut exact = [0; 512];
    let mut places = [0; 66];
    let mut lent = Lent {
        scratch: &mut exact,
        places: &mut places,
    };
    small::tell_small(rt, &mut lent)?;
    random::tell_random(rt, &table, &mut lent)?;
    left::tell_edges(rt, &mut lent)?;
    left::tell_examples(rt, &mut lent)?;
    tell_sizes(rt, &mut places)?;
    tell_too_little(rt, &mut exact, &mut places)
}

// With a scratch that is larger than it must be.
fn tell_sizes(rt: &impl Print, places: &mut [u16]) -> io::Result<()> {
    let mut longer = [0; 513];
    tell_size(rt, &mut longer, places)?;
    let mut large = [0; 5248];
    tell_size(rt, &mut large, places)
}

fn tell_size(rt: &impl Print, scratch: &mut [u64], places: &mut [u16]) -> io::Result<()> {
    let mut lent = Lent { scratch, places };
    left::tell_edges(rt, &mut lent)?;
    left::tell_examples(rt, &mut lent)
}

// With a scratch of 511 numbers, and with 63 places.
fn tell_too_little(rt: &impl Print, exact: &mut [u64], places: &mut [u16]) -> io::Result<()> {
    let mut short = [0; 511];
    tell_few(rt, &mut short, places)?;
    let mut few = [0; 63];
    tell_few(rt, exact, &mut few)?;
    let mut large = [0; 5248];
    tell_few(rt, &mut large, &mut few)
}

fn tell_few(rt: &impl Print, scratch: &mut [u64], places: &mut [u16]) -> io::Result<()> {
    left::tell_examples(rt, &mut Lent { scratch, places })
}
