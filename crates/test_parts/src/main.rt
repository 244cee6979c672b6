// Prints each part number with its value, the value's exponents and the number that these have, and the exponents told from the number;
// then numbers at the edges of the table, exponents of numbers past it, and sums that just fit and just do not.
#![tactic(auto)]

ghost use Rattle.std.specs.Prelude.{◌≡◌, get_or};
ghost use Rattle.parts.specs.Table.{parts};

use std::{array, io};
use test_kit::{OrDash, Regardless, first};

fn print_exponents(rt: &impl Print, number: u16) -> io::Result<()> {
    let exponents = parts::exponents_at(number);
    println!(rt; "{} {}", exponents.a, exponents.b)
}

// One line of the table.
fn print_entry(rt: &impl Print, table: &[u64], number: u16) -> io::Result<()> {
    let value = parts::value_of(table, number);
    let exponents = parts::exponents_of(value);
    let (a, b) = (exponents.a, exponents.b);
    print!(rt;
        "{number} {value} {a} {b} {} ",
        OrDash(parts::number_of(a, b))
    )?;
    print_exponents(rt, number)
}

// Numbers that no part has.
fn print_past(rt: &impl Print) -> io::Result<()> {
    print_exponents(rt, 1344)?;
    print_exponents(rt, 1345)?;
    print_exponents(rt, u16::MAX)
}

// Exponents at the edges of the table, within and without.
const POINTS: [(u64, u64); 15] = [
    (63, 0),
    (64, 0),
    (62, 1),
    (63, 1),
    (32, 20),
    (33, 20),
    (40, 20),
    (0, 40),
    (1, 40),
    (0, 41),
    (2, 39),
    (3, 39),
    (u64::MAX, 0),
    (0, u64::MAX),
    (u64::MAX, u64::MAX),
];

fn print_points(rt: &impl Print) -> io::Result<()> {
    for (a, b) in POINTS {
        println!(rt; "{a} {b} {}", OrDash(parts::number_of(a, b)))?;
    }
    Ok(())
}

fn print_sum(rt: &impl Print, table: &[u64], numbers: &[u16]) -> io::Result<()> {
    println!(rt; "{}", OrDash(parts::sum_of(table, numbers)))
}

// 2^a × 3^b + 2^c × 3^d.
fn print_pair(
    rt: &impl Print,
    table: &[u64],
    (a, b): (u64, u64),
    (c, d): (u64, u64),
) -> io::Result<()> {
    let numbers = [parts::part_number(a, b), parts::part_number(c, d)];
    print_sum(rt, table, &numbers)
}

// The numbers of the 64 powers of 2, and of 1 once more.
// It stands in three programs, so that test_kit does without the crate parts.
fn powers() -> [u16; 65] {
    array::from_fn(|i| parts::part_number(i as u64 % 64, 0))
}

fn print_powers(rt: &impl Print, table: &[u64]) -> io::Result<()> {
    let numbers = powers();
    print_sum(rt, table, &[])?;
    print_sum(rt, table, first(&numbers, 64))?;
    print_sum(rt, table, &numbers)
}

fn print_pairs(rt: &impl Print, table: &[u64]) -> io::Result<()> {
    print_pair(rt, table, (63, 0), (62, 0))?;
    print_pair(rt, table, (63, 0), (63, 0))?;
    print_pair(rt, table, (62, 1), (61, 0))?;
    print_pair(rt, table, (62, 1), (62, 0))?;
    print_pair(rt, table, (62, 1), (61, 1))
}

// The largest part, from a copy of the table: what is lent to `value_of` is known to be the part table.
fn largest() -> u64
    ensures { result ≡ get_or parts 1343 0 }
{
    let table = parts::table::copy();
    parts::value_of(&table, 1343)
}

fn print_all(rt: &impl Print) -> io::Result<()> {
    let table = parts::table::copy();
    for number in 0..1344 {
        print_entry(rt, &table, number)?;
    }
    println!(rt; "{}", largest())?;
    print_points(rt)?;
    print_past(rt)?;
    print_powers(rt, &table)?;
    print_pairs(rt, &table)
}

fn main(rt: HostRuntime) {
    let _ = print_all(&Regardless(&rt));
}
