// Words, records and lent memory that are refused or just good enough.
ghost use Rattle.std.specs.Prelude.{◌≤◌, ◌<◌};

use super::services::{Lent, Place};
use super::{lines, services};
use std::{array, io};
use test_kit::{Told, first, long_word, mark};

// Where no chain is expected.
const NOWHERE: Place = Place { n: 0, position: 0 };

fn tell_word(rt: &impl Print, letters: &[u8], lent: Lent) -> io::Result<()> {
    let given = services::given_word(letters, lent);
    print!(rt; "{} {}", Told(given.found), mark(given.right))?;
    lines::tell_next(rt, letters, NOWHERE, lent)?;
    println!(rt; "")
}

fn tell_record(rt: &impl Print, numbers: &[u16], lent: Lent) -> io::Result<()> {
    lines::tell_record(rt, numbers, NOWHERE, lent)?;
    println!(rt; "")
}

// The number of 2^a × 3^b.
fn number(a: u64, b: u64) -> u16 {
    parts::number_of(a, b).unwrap_or(u16::MAX)
}

// A word of `count` letters of one kind, and 3.
fn tell_long(rt: &impl Print, letter: u8, count: usize, lent: Lent) -> io::Result<()>
    requires { count < 255 }
{
    tell_word(rt, &long_word(letter, count)[..count + 1], lent)
}

fn tell_words(rt: &impl Print, lent: Lent) -> io::Result<()> {
    tell_word(rt, b"", lent)?;
    tell_word(rt, b"\x00", lent)?;
    tell_word(rt, b"\x02", lent)?;
    tell_word(rt, b"\x04", lent)?;
    tell_word(rt, b"\x00\x02\x03", lent)?;
    tell_word(rt, b"\x01\x02\x03", lent)?;
    tell_word(rt, b"\x01\x03\x02", lent)
}

fn tell_long_words(rt: &impl Print, lent: Lent) -> io::Result<()> {
    tell_long(rt, 0, 63, lent)?;
    tell_long(rt, 0, 64, lent)?;
    tell_long(rt, 2, 40, lent)?;
    tell_long(rt, 2, 41, lent)?;
    tell_long(rt, 1, 63, lent)?;
    tell_long(rt, 1, 64, lent)
}

fn tell_records(rt: &impl Print, lent: Lent) -> io::Result<()> {
    tell_record(rt, &[], lent)?;
    tell_record(rt, &[1343], lent)?;
    tell_record(rt, &[1344], lent)?;
    tell_record(rt, &[0, 1344], lent)?;
    tell_record(rt, &[0, 0], lent)?;
    tell_record(rt, &[0, 1], lent)?;
    tell_record(rt, &[number(62, 1), number(61, 1)], lent)?;
    tell_record(rt, &[number(63, 0), number(62, 0)], lent)
}

// The powers of 2 from 2^63 down, and 1 once more.
fn powers() -> [u16; 65] {
    array::from_fn(|i| number(63u64.saturating_sub(i as u64), 0))
}

// A record of as many parts as there may be, and one of one more.
fn tell_many_parts(rt: &impl Print, lent: Lent) -> io::Result<()> {
    let numbers = powers();
    tell_record(rt, first(&numbers, 64), lent)?;
    tell_record(rt, &numbers, lent)
}

fn tell_lent(rt: &impl Print, lent: Lent) -> io::Result<()> {
    tell_words(rt, lent)?;
    tell_long_words(rt, lent)?;
    tell_records(rt, lent)?;
    tell_many_parts(rt, lent)
}

// What three services answer to too little lent: nothing is touched.
fn tell_too_little(rt: &impl Print, lent: Lent, count: usize) -> io::Result<()>
    requires { count ≤ 70 }
{
    let refused = services::refused_little(lent, count);
    print!(rt;
        "{} {} {} ",
        Told(refused.at),
        Told(refused.word),
        Told(refused.next)
    )?;
    println!(rt; "{}", mark(refused.right))
}

// The same of a record, read and placed: no places are lent, and a scratch of 511 numbers.
fn tell_small_record(rt: &impl Print) -> io::Result<()> {
    let place = Place { n: 19, position: 3 };
    lines::tell_record(rt, &[9, 0], place, Lent { size: 511 })?;
    println!(rt; "")
}

pub fn tell_all(rt: &impl Print) -> io::Result<()> {
    tell_lent(rt, Lent { size: 512 })?;
    tell_lent(rt, Lent { size: 513 })?;
    tell_lent(
        rt,
        Lent {
            size: services::LARGEST,
        },
    )?;
    tell_too_little(rt, Lent { size: 511 }, 70)?;
    tell_small_record(rt)?;
    tell_too_little(rt, Lent { size: 512 }, 63)?;
    tell_too_little(
        rt,
        Lent {
            size: services::LARGEST,
        },
        63,
    )
}
