// The numbers with one chain and with two, by the table count (T-11).
//
// First all numbers below 3,145,728: a line for each that has fewer than three chains, the number and its count. After each 65,536
// numbers a line `< n d`, where d is a digest of the counts of all numbers below n. Then the numbers 3 × 2^a − 1, 9 × 2^a − 1 and
// 15 × 2^a − 1 below 2^64: a line for each, the number, its count, and the counts of the number before it and of the one after it.
#![tactic(auto)]

use std::io;
use test_kit::Regardless;

// A refusal is told as 0, which is the count of no number.
fn count_of(n: u64, scratch: &mut [u64]) -> u64 {
    counting::table_count(n, scratch).unwrap_or(0)
}

// A digest with one count more: 31 times the last 56 bits of the digest before it, and the count.
fn mixed(digest: u64, w: u64) -> u64 {
    (31 * (digest % 72057594037927936)).wrapping_add(w)
}

// The 65,536 numbers from `from` on. Answers the digest of all counts up to the last, from that of the counts before the first.
fn tell_block(rt: &impl Print, from: u64, before: u64, scratch: &mut [u64]) -> io::Result<u64> {
    let mut digest = before;
    for i in 0..65536 {
        let n = from.wrapping_add(i);
        let w = count_of(n, scratch);
        digest = mixed(digest, w);
        if w < 3 {
            println!(rt; "{n} {w}")?;
        }
    }
    Ok(digest)
}

fn tell_blocks(rt: &impl Print, scratch: &mut [u64]) -> io::Result<()> {
    let mut digest = 0;
    for block in 0..48 {
        digest = tell_block(rt, 65536 * block, digest, scratch)?;
        println!(rt; "< {} {digest}", 65536 * block + 65536)?;
    }
    Ok(())
}

// n and its count, and the counts of the numbers beside it.
fn tell_beside(rt: &impl Print, n: u64, scratch: &mut [u64]) -> io::Result<()> {
    let count = count_of(n, scratch);
    let before = count_of(n.wrapping_sub(1), scratch);
    let after = count_of(n.wrapping_add(1), scratch);
    println!(rt; "{n} {count} {before} {after}")
}

// The numbers c × 2^a − 1 below 2^64, where the first is c − 1.
fn tell_family(rt: &impl Print, first: u64, scratch: &mut [u64]) -> io::Result<()> {
    let mut n = first;
    for _ in 0..64 {
        tell_beside(rt, n, scratch)?;
        if n > u64::MAX / 2 {
            break;
        }
        n = 2 * n + 1;
    }
    Ok(())
}

fn tell_all(rt: &impl Print) -> io::Result<()> {
    let mut scratch = [0; 512];
    tell_blocks(rt, &mut scratch)?;
    tell_family(rt, 2, &mut scratch)?;
    tell_family(rt, 8, &mut scratch)?;
    tell_family(rt, 14, &mut scratch)
}

fn main(rt: HostRuntime) {
    let _ = tell_all(&Regardless(&rt));
}
