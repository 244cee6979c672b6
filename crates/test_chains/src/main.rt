// The words of all chains of 0 to 300. Standard input has a record a line, part numbers in decimal with a space between them, those
// of a number in the order of its list. For each the program prints the sum of the parts, the word, and how the word of the line
// before stands to it: < where it is earlier, > where it is later.
#![tactic(auto)]

use std::cmp::Ordering;
use std::io;
use test_kit::{Record, Regardless, Told, first, read_block};

// The last word printed, to compare the next one with. No heap: an array with the length beside it.
#[derive(Clone, Copy)]
struct Last {
    letters: [u8; 64],
    length: u64,
}

impl Last {
    fn word(&self) -> &[u8] {
        first(&self.letters, self.length)
    }
}

// The word of a record: none where it is refused.
fn word_of(numbers: &[u16]) -> Last {
    let mut letters = [0; 64];
    let length = words::write_word(numbers, &mut letters).unwrap_or(0);
    Last { letters, length }
}

fn sign_of(u: &[u8], v: &[u8]) -> char {
    match comparing::compare_words(u, v) {
        Ok(Ordering::Less) => '<',
        Ok(Ordering::Equal) => '=',
        Ok(Ordering::Greater) => '>',
        Err(_) => '!',
    }
}

fn print_letters(rt: &impl Print, letters: &[u8]) -> io::Result<()> {
    for letter in letters {
        print!(rt; "{letter}")?;
    }
    Ok(())
}

// One line of the answer, and its word.
fn print_record(rt: &impl Print, numbers: &[u16], last: Last) -> io::Result<Last> {
    let next = word_of(numbers);
    print!(rt; "{} ", Told(words::judge_record(numbers)))?;
    print_letters(rt, next.word())?;
    println!(rt; " {}", sign_of(last.word(), next.word()))?;
    Ok(next)
}

fn answer(rt: &impl Print, text: &[u8]) -> io::Result<()> {
    let mut record = Record::<64>::new();
    let mut last = Last {
        letters: [0; 64],
        length: 0,
    };
    for c in text {
        match *c {
            b'\n' => {
                last = print_record(rt, record.numbers(), last)?;
                record = Record::new();
            }
            c => record.read(c),
        }
    }
    Ok(())
}

// The first 65,536 characters of the input are read.
fn main(rt: HostRuntime) {
    let mut text = [0; 65536];
    let n = read_block(&mut rt.stdin(), &mut text);
    let _ = answer(&Regardless(&rt), &text[..n]);
}
