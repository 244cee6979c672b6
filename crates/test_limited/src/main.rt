// The cheapest chain within limits, and the count of chains with at most so many parts.
//
// - Of 0 to 200, under seven of fourteen ways each, and of sixteen numbers at the edges, under four: a line has the number, the way, and
//   the cheapest chain under more and more parts, each time another chain is the cheapest: the limit on parts, the number of parts, the
//   price and the part numbers, or the number of the refusal; then = where the best chain within the same limits is the same. After these
//   lines one with the counts, each time there is another, and the table count last.
// - Of 300 random numbers of 25 to 64 bits: the cheapest chains under fewer and fewer parts, and within limits on doublings and
//   triplings. A chain is told by the number of its parts, its price and a digest. Then two counts.
// - What is left in the lent memory, for a scratch one number too short, just long enough and ten longer, and for 63, 64 and 70 places:
//   the cheapest chain, where the zeros that the scratch begins with end, where what it held at entry ends after them, and the same of
//   the places behind the parts; then the count, with the same of the scratch.
#![tactic(auto)]

mod asked;
mod calls;
mod falling;
mod left;
mod rising;

use std::io;
use test_choice::Lent;
use test_kit::Regardless;

fn tell_all(rt: &impl Print) -> io::Result<()> {
    let table = parts::table::copy();
    let mut scratch = [0; 174730];
    let mut places = [0; 70];
    let mut lent = Lent {
        scratch: &mut scratch,
        places: &mut places,
    };
    rising::tell_small(rt, &mut lent)?;
    rising::tell_edges(rt, &mut lent)?;
    falling::tell_random(rt, &table, &mut lent)?;
    left::tell_sizes(rt, lent.scratch)
}

fn main(rt: HostRuntime) {
    let _ = tell_all(&Regardless(&rt));
}
