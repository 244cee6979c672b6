// Under more and more parts: the cheapest chain, and the count.
use super::{asked, calls};
use std::io;
use test_choice::{Lent, Question};
use test_kit::{Spaced, Told, first};

// Whether the best chain within the same limits is the chain with this digest, or is refused likewise.
fn is_best(asked: Question, digest: u64, lent: &mut Lent<'_>) -> bool {
    let found = calls::choose_chain(asked, lent);
    calls::digest_of_chain(found, lent.places) == digest
}

// The cheapest chain, where it is not the one with the digest `last`: the limit on parts, what is told, and = where the best chain is the
// same. The digest of what is told.
fn tell_changed(
    rt: &impl Print,
    asked: Question,
    last: u64,
    lent: &mut Lent<'_>,
) -> io::Result<u64> {
    let found = calls::cheapest_chain(asked, lent);
    let digest = calls::digest_of_chain(found, lent.places);
    if digest != last {
        let numbers = Spaced(first(lent.places, calls::parts_of(found)));
        print!(rt; " {}: {}{numbers}", asked.limits.parts, Told(found))?;
        print!(rt;
            "{}",
            if is_best(asked, digest, lent) {
                " ="
            } else {
                ""
            }
        )?;
    }
    Ok(digest)
}

// Under each of some limits on parts. The digest of what is told last.
fn tell_rising(
    rt: &impl Print,
    n: u64,
    way: usize,
    limits: &[u8],
    lent: &mut Lent<'_>,
) -> io::Result<u64> {
    let mut last = 0;
    for parts in limits {
        last = tell_changed(rt, asked::in_way(n, way, *parts), last, lent)?;
    }
    Ok(last)
}

// The count, where it is not `last`, with the limit on parts.
fn tell_count(
    rt: &impl Print,
    n: u64,
    parts: u8,
    last: u64,
    scratch: &mut [u64],
) -> io::Result<u64> {
    let count = calls::count_up_to(n, parts, scratch);
    if count != last {
        print!(rt; " {parts}: {count}")?;
    }
    Ok(count)
}

fn count_rising(rt: &impl Print, n: u64, limits: &[u8], scratch: &mut [u64]) -> io::Result<u64> {
    let mut last = u64::MAX;
    for parts in limits {
        last = tell_count(rt, n, *parts, last, scratch)?;
    }
    Ok(last)
}

// The table count, at the end of a line of counts.
fn tell_all(rt: &impl Print, n: u64, scratch: &mut [u64]) -> io::Result<()> {
    println!(rt; " {}", calls::count_all(n, scratch))
}

// ---- small numbers: up to seven parts, and without a limit. At entry the scratch holds n

fn tell_small_way(rt: &impl Print, n: u64, way: usize, lent: &mut Lent<'_>) -> io::Result<()> {
    print!(rt; "{n} {way}")?;
    lent.scratch.fill(n);
    let last = tell_rising(rt, n, way, first(&asked::PARTS, 8), lent)?;
    tell_changed(rt, asked::in_way(n, way, asked::no_limit(n)), last, lent)?;
    println!(rt; "")
}

fn tell_small_ways(rt: &impl Print, n: u64, lent: &mut Lent<'_>) -> io::Result<()> {
    for i in 0..7 {
        tell_small_way(rt, n, (n as usize % 14 + i) % 14, lent)?;
    }
    Ok(())
}

fn tell_small_counts(rt: &impl Print, n: u64, scratch: &mut [u64]) -> io::Result<()> {
    print!(rt; "{n}")?;
    scratch.fill(n);
    let last = count_rising(rt, n, first(&asked::PARTS, 8), scratch)?;
    tell_count(rt, n, asked::no_limit(n), last, scratch)?;
    tell_all(rt, n, scratch)
}

pub fn tell_small(rt: &impl Print, lent: &mut Lent<'_>) -> io::Result<()> {
    for n in 0..201 {
        tell_small_ways(rt, n, lent)?;
        tell_small_counts(rt, n, lent.scratch)?;
    }
    Ok(())
}

// ---- numbers at the edges: all limits on parts. At entry the scratch holds the way, or ones at the counts

fn tell_edge_way(rt: &impl Print, n: u64, way: usize, lent: &mut Lent<'_>) -> io::Result<()> {
    print!(rt; "{n} {way}")?;
    lent.scratch.fill(way as u64);
    tell_rising(rt, n, way, &asked::PARTS, lent)?;
    println!(rt; "")
}

fn tell_edge_counts(rt: &impl Print, n: u64, scratch: &mut [u64]) -> io::Result<()> {
    print!(rt; "{n}")?;
    scratch.fill(1);
    count_rising(rt, n, &asked::PARTS, scratch)?;
    tell_all(rt, n, scratch)
}

fn tell_edge(rt: &impl Print, n: u64, i: usize, lent: &mut Lent<'_>) -> io::Result<()> {
    for j in 0..4 {
        tell_edge_way(rt, n, (i % 14 + 3 * j) % 14, lent)?;
    }
    tell_edge_counts(rt, n, lent.scratch)
}

pub fn tell_edges(rt: &impl Print, lent: &mut Lent<'_>) -> io::Result<()> {
    for (i, n) in asked::NUMBERS.iter().enumerate() {
        tell_edge(rt, *n, i, lent)?;
    }
    Ok(())
}
