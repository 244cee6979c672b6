// The table count of 0 to 2,000 and of many 64-bit numbers, with a scratch that holds only ones at entry, and what it leaves in the
// scratch: one call a line, the count or the number of the refusal, then where the zeros that the scratch begins with end, then
// where the ones that follow them end. The scratch has 512 numbers, one more, or 5,248. One of 511 is refused and holds no zero.
#![tactic(auto)]

use std::io;
use test_kit::{Regardless, Told, ends};

// The last number that the plain count serves, powers of two and of three with their neighbours, a large count, and the last
// number.
const SPECIAL: [u64; 24] = [
    65535,
    65536,
    1000000,
    4294967295,
    4294967296,
    1000000000000000000,
    1162261466,
    1162261467,
    1162261468,
    1247968747541495808,
    4611686018427387903,
    4611686018427387904,
    9223372036854775807,
    9223372036854775808,
    9223372036854775809,
    12157665459056928800,
    12157665459056928801,
    12157665459056928802,
    13835058055282163711,
    13835058055282163712,
    15973999968531146337,
    16677181699666569000,
    18446744073709551614,
    18446744073709551615,
];

fn tell(rt: &impl Print, n: u64, scratch: &mut [u64]) -> io::Result<()> {
    scratch.fill(u64::MAX);
    let count = Told(counting::table_count(n, scratch));
    let (zeros, ones) = ends(scratch, 0, &0, &u64::MAX);
    println!(rt; "{count} {zeros} {ones}")
}

fn tell_small(rt: &impl Print, scratch: &mut [u64]) -> io::Result<()> {
    for n in 0..2001 {
        tell(rt, n, scratch)?;
    }
    Ok(())
}

// 2^64 - 1 divided by 1 to 500.
fn tell_divided(rt: &impl Print, scratch: &mut [u64]) -> io::Result<()> {
    for d in 1..501 {
        tell(rt, u64::MAX / d, scratch)?;
    }
    Ok(())
}

fn tell_special(rt: &impl Print, scratch: &mut [u64]) -> io::Result<()> {
    for n in SPECIAL {
        tell(rt, n, scratch)?;
    }
    Ok(())
}

fn tell_all(rt: &impl Print) -> io::Result<()> {
    let mut exact = [0; 512];
    tell_small(rt, &mut exact)?;
    tell_divided(rt, &mut exact)?;
    tell_special(rt, &mut exact)?;
    let mut longer = [0; 513];
    tell_divided(rt, &mut longer)?;
    tell_special(rt, &mut longer)?;
    let mut large = [0; 5248];
    tell_divided(rt, &mut large)?;
    tell_special(rt, &mut large)?;
    let mut short = [0; 511];
    tell_special(rt, &mut short)
}

fn main(rt: HostRuntime) {
    let _ = tell_all(&Regardless(&rt));
}
