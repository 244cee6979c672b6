// Prints what the services on words answer. First all words of up to five letters 0 to 4: a good one with its number, its parts and
// its word written from them, any other not at all; then words at the edges and damaged ones, and records that are refused or just
// fit, each with the lent places, which hold 170 at entry.
#![tactic(auto)]

ghost use Rattle.std.specs.Prelude.{◌<◌};

use refusals::Refusal;
use std::{array, fmt, io};
use test_kit::{Regardless, Spaced, first, long_word, spell};
use words::Parted;

// ---- words of few letters

// A record, and the word written from it.
fn print_record(rt: &impl Print, numbers: &[u16]) -> io::Result<()> {
    print!(rt; "{} :", Spaced(numbers))?;
    let mut places = [170; 64];
    match words::write_word(numbers, &mut places) {
        Ok(k) => print!(rt; "{}", Spaced(first(&places, k))),
        Err(r) => print!(rt; " {}", u8::from(r)),
    }
}

fn print_parts(rt: &impl Print, word: &[u8]) -> io::Result<()> {
    let mut places = [170; 64];
    match words::word_parts(word, &mut places) {
        Ok(Parted { n, k }) => {
            print!(rt; " {n} {k} :")?;
            print_record(rt, first(&places, k))
        }
        Err(r) => print!(rt; " {}", u8::from(r)),
    }
}

// A good word with its number, how many parts it has, their numbers, and the word written from them.
fn print_good(rt: &impl Print, word: &[u8]) -> io::Result<()> {
    print!(rt; "{} :", Spaced(word))?;
    print_parts(rt, word)?;
    println!(rt; "")
}

// The words of letters 0 to 4 in the order of their lengths, the empty one first.
fn print_words(rt: &impl Print) -> io::Result<()> {
    for index in 0..3906 {
        let word = spell(&[0, 1, 2, 3, 4], index);
        if words::is_good(word.letters()) {
            print_good(rt, word.letters())?;
        }
    }
    Ok(())
}

// ---- words at the edges, and damaged ones

// What a service answers, or the number of the refusal.
#[derive(Clone, Copy)]
struct Answer(Result<u64, Refusal>);

impl fmt::Display for Answer {
    fn fmt<W: fmt::Write>(&self, f: &mut fmt::Formatter<W>) -> fmt::Result {
        match &self.0 {
            Ok(value) => write!(f, " {value}"),
            Err(r) => write!(f, " refused {}", u8::from(*r)),
        }
    }
}

fn print_weight(rt: &impl Print, word: &[u8]) -> io::Result<()> {
    match words::weigh(word) {
        Some(n) => print!(rt; " {n}"),
        None => print!(rt; " over"),
    }
}

// What a word gets that lends some places, and the places.
fn show_parts(rt: &impl Print, word: &[u8], places: &mut [u16]) -> io::Result<()> {
    match words::word_parts(word, places) {
        Ok(Parted { n, k }) => print!(rt; " {n} {k}")?,
        Err(r) => print!(rt; " refused {}", u8::from(r))?,
    }
    print!(rt; " :{}", Spaced(places))
}

fn show_word(rt: &impl Print, word: &[u8]) -> io::Result<()> {
    print!(rt; "{}", if words::is_good(word) { "good" } else { "bad" })?;
    print_weight(rt, word)?;
    show_parts(rt, word, &mut [170; 66])?;
    show_parts(rt, word, &mut [170; 63])?;
    println!(rt; "")
}

// A letter, `count` times, and then a 3.
fn show_long(rt: &impl Print, letter: u8, count: usize) -> io::Result<()>
    requires { count < 255 }
{
    show_word(rt, &long_word(letter, count)[..count + 1])
}

fn show_words(rt: &impl Print) -> io::Result<()> {
    show_long(rt, 0, 63)?;
    show_long(rt, 0, 64)?;
    show_long(rt, 1, 63)?;
    show_long(rt, 1, 64)?;
    show_long(rt, 2, 40)?;
    show_long(rt, 2, 41)?;
    show_long(rt, 3, 40)?;
    show_long(rt, 3, 41)?;
    show_long(rt, 0, 254)?;
    show_long(rt, 1, 254)?;
    show_long(rt, 2, 254)?;
    show_long(rt, 3, 254)?;
    show_long(rt, 4, 2)?;
    show_long(rt, 255, 2)
}

fn show_damaged(rt: &impl Print) -> io::Result<()> {
    let letters = [3, 0, 3, 4, 3, 2, 0, 2, 3, 255];
    show_word(rt, &letters[0..0])?;
    show_word(rt, &letters[0..1])?;
    show_word(rt, &letters[0..2])?;
    show_word(rt, &letters[0..3])?;
    show_word(rt, &letters[2..5])?;
    show_word(rt, &letters[4..6])?;
    show_word(rt, &letters[5..9])?;
    show_word(rt, &letters[7..9])?;
    show_word(rt, &letters[8..10])
}

// ---- records

// What a record gets that lends some places, and the places.
fn show_written(rt: &impl Print, numbers: &[u16], places: &mut [u8]) -> io::Result<()> {
    print!(rt;
        "{} :{}",
        Answer(words::write_word(numbers, places)),
        Spaced(places)
    )
}

fn show_record(rt: &impl Print, numbers: &[u16]) -> io::Result<()> {
    print!(rt; "{}", Answer(words::judge_record(numbers)))?;
    show_written(rt, numbers, &mut [170; 66])?;
    show_written(rt, numbers, &mut [170; 63])?;
    println!(rt; "")
}

// 2^a × 3^b and 2^c × 3^d.
fn show_pair(rt: &impl Print, (a, b): (u64, u64), (c, d): (u64, u64)) -> io::Result<()> {
    let numbers = [parts::part_number(a, b), parts::part_number(c, d)];
    show_record(rt, &numbers)
}

// The 64 powers of 2, largest first, and 1 once more.
// It stands in three programs, so that test_kit does without the crate parts.
fn powers() -> [u16; 65] {
    array::from_fn(|i| parts::part_number(63u64.saturating_sub(i as u64), 0))
}

fn show_records(rt: &impl Print) -> io::Result<()> {
    let numbers = powers();
    show_record(rt, &[])?;
    show_record(rt, &[0])?;
    show_record(rt, first(&numbers, 64))?;
    show_record(rt, &numbers)?;
    show_pair(rt, (64, 0), (0, 0))?;
    show_pair(rt, (0, 0), (64, 0))?;
    show_pair(rt, (1, 2), (0, 0))?;
    show_pair(rt, (0, 0), (1, 0))?;
    show_pair(rt, (3, 1), (3, 1))?;
    show_pair(rt, (1, 1), (2, 0))?;
    show_pair(rt, (0, 40), (0, 0))?;
    show_pair(rt, (62, 1), (61, 0))?;
    show_pair(rt, (62, 1), (62, 0))?;
    show_pair(rt, (62, 1), (61, 1))?;
    show_pair(rt, (63, 0), (62, 1))
}

fn show_all(rt: &impl Print) -> io::Result<()> {
    print_words(rt)?;
    show_words(rt)?;
    show_damaged(rt)?;
    show_records(rt)
}

fn main(rt: HostRuntime) {
    let _ = show_all(&Regardless(&rt));
}
