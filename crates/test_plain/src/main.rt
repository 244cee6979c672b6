// The plain count of 0 to 2,000, then of 65,536 and 2^64 − 1, which are refused, and of 65,535: one answer a line, in decimal, the
// count or the number of the refusal.
#![tactic(auto)]

use std::io;
use test_kit::{Regardless, Told};

fn tell(rt: &impl Print, n: u64) -> io::Result<()> {
    println!(rt; "{}", Told(counting::plain_count(n)))
}

fn tell_all(rt: &impl Print) -> io::Result<()> {
    for n in 0..2001 {
        tell(rt, n)?;
    }
    tell(rt, 65536)?;
    tell(rt, u64::MAX)?;
    tell(rt, 65535)
}

fn main(rt: HostRuntime) {
    let _ = tell_all(&Regardless(&rt));
}
