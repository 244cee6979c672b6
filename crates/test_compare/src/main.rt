// Prints how pairs of words compare: < earlier, = the same, > later, 7 refused.
// First all pairs of words of up to three letters among 0 to 4 and 255, a line for each first word.
// Then long words that differ in one place. A line is for a length and a filler: the word is the filler repeated, with a 3 at the end.
// At each place each of eight letters is put, and four pairs are compared: the old word and the new one, both ways round, and the old
// word cut off at the place and the new one, both ways round.
// Then words of zeros with one 1 and a 3 at the end: all pairs of one length, a line for each length; and without the 1 all pairs of
// lengths up to 26, a line for each first length.
#![tactic(auto)]

ghost use Rattle.std.specs.Prelude.{◌≡◌, ◌≤◌, ◌<◌, length, take};

use refusals::Refusal;
use std::cmp::Ordering;
use std::io;
use test_kit::{Regardless, Word, long_word, spell};

// A sign is written as it is, since 234,000 of them take a quarter more time where each is formatted.
fn print_compared(rt: &impl Print, u: &[u8], v: &[u8]) -> io::Result<()> {
    match comparing::compare_words(u, v) {
        Ok(Ordering::Less) => rt.write_all(b"<"),
        Ok(Ordering::Equal) => rt.write_all(b"="),
        Ok(Ordering::Greater) => rt.write_all(b">"),
        Err(Refusal::BadWord) => rt.write_all(b"7"),
        Err(r) => print!(rt; "{}", u8::from(r)),
    }
}

// ---- words of few letters

// How many words of up to three letters there are among six.
const WORDS: usize = 259;

fn word_at(index: usize) -> Word {
    spell(&[0, 1, 2, 3, 4, 255], index)
}

fn print_row(rt: &impl Print, u: &[u8]) -> io::Result<()> {
    for j in 0..WORDS {
        print_compared(rt, u, word_at(j).letters())?;
    }
    println!(rt; "")
}

fn print_pairs(rt: &impl Print) -> io::Result<()> {
    for i in 0..WORDS {
        print_row(rt, word_at(i).letters())?;
    }
    Ok(())
}

// ---- long words

// A word of up to 255 letters. No heap: an array with the count beside it.
#[derive(Clone, Copy)]
struct Long {
    letters: [u8; 255],
    count: usize,
    ghost some: { 0 < count },
    ghost fits: { count ≤ 255 },
}

impl Long {
    // The filler repeated, with a 3 at the end of `count` letters.
    fn new(filler: u8, count: usize) -> Long
        requires { (0 < count) × (count ≤ 255) }
        ensures { result.count ≡ count }
    {
        Long {
            letters: long_word(filler, count - 1),
            count,
        }
    }

    fn letters(&self) -> &[u8]
        ensures { result.now ≡ take self.now.count self.now.letters }
    {
        &self.letters[..self.count]
    }

    // The word with a 1 at the place. The last letter stays.
    fn with_one(self, place: usize) -> Long
        ensures { result.count ≡ self.count }
    {
        let mut word = self;
        if place < word.count - 1 {
            word.letters[place] = 1;
        }
        word
    }
}

// ---- long words that differ in one place

// Letters in and above 0 to 3.
const LETTERS: [u8; 8] = [0, 1, 2, 3, 4, 255, 19, 131];

fn show_words(rt: &impl Print, old: &[u8], new: &[u8], place: usize) -> io::Result<()>
    requires { place ≤ length old.now }
{
    print_compared(rt, old, new)?;
    print_compared(rt, new, old)?;
    print_compared(rt, &old[..place], new)?;
    print_compared(rt, new, &old[..place])
}

// Each letter is put at the place.
fn show_place(rt: &impl Print, old: &Long, place: usize) -> io::Result<()>
    requires { place < old.now.count }
{
    let mut new = *old;
    for letter in LETTERS {
        new.letters[place] = letter;
        show_words(rt, old.letters(), new.letters(), place)?;
    }
    Ok(())
}

fn show_places(rt: &impl Print, old: &Long) -> io::Result<()> {
    for place in 0..old.count {
        show_place(rt, old, place)?;
    }
    println!(rt; "")
}

fn show_fillers(rt: &impl Print, count: usize) -> io::Result<()>
    requires { (0 < count) × (count ≤ 255) }
{
    for filler in 0..4 {
        show_places(rt, &Long::new(filler, count))?;
    }
    Ok(())
}

fn show_changes(rt: &impl Print, from: usize, to: usize) -> io::Result<()>
    requires { (0 < from) × (to ≤ 256) }
{
    for count in from..to {
        show_fillers(rt, count)?;
    }
    Ok(())
}

// ---- words of zeros with one 1

fn show_row(rt: &impl Print, zeros: &Long, u: &[u8]) -> io::Result<()> {
    for place in 0..zeros.count {
        print_compared(rt, u, zeros.with_one(place).letters())?;
    }
    Ok(())
}

// All pairs of the words with a 1 in place of one of the zeros, and of the zeros alone.
fn show_ones(rt: &impl Print, zeros: &Long) -> io::Result<()> {
    for place in 0..zeros.count {
        show_row(rt, zeros, zeros.with_one(place).letters())?;
    }
    println!(rt; "")
}

fn show_all_ones(rt: &impl Print, from: usize, to: usize) -> io::Result<()>
    requires { (0 < from) × (to ≤ 256) }
{
    for count in from..to {
        show_ones(rt, &Long::new(0, count))?;
    }
    Ok(())
}

fn show_length(rt: &impl Print, u: &[u8]) -> io::Result<()> {
    for count in 1..27 {
        print_compared(rt, u, Long::new(0, count).letters())?;
    }
    println!(rt; "")
}

fn show_lengths(rt: &impl Print) -> io::Result<()> {
    for count in 1..27 {
        show_length(rt, Long::new(0, count).letters())?;
    }
    Ok(())
}

fn show_all(rt: &impl Print) -> io::Result<()> {
    print_pairs(rt)?;
    show_changes(rt, 1, 27)?;
    show_changes(rt, 63, 67)?;
    show_changes(rt, 127, 131)?;
    show_all_ones(rt, 1, 27)?;
    show_all_ones(rt, 63, 67)?;
    show_lengths(rt)
}

fn main(rt: HostRuntime) {
    let _ = show_all(&Regardless(&rt));
}
