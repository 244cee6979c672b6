// Path words: which are good, what number a word stands for. Records: what they get, and their words.
#![tactic(auto)]

mod entries;
mod letters;
mod packing;
mod readers;
mod records;
mod to_parts;
mod weights;

ghost use Rattle.std.specs.Prelude.{◌≡◌, true, length};
ghost use Rattle.chains.specs.Words.{reads};
ghost use Rattle.words.specs.Answers.{weighed_of};
ghost use Rattle.words.specs.Records.{judged_of};
ghost use Rattle.words.specs.Conversions.{written_of, letters_left, parted_of, numbers_left};
ghost use Rattle.words.specs.Packed.{packed_of, packed_letters, packed_chain, parts_left};

use entries::Table;
use refusals::Refusal;

// The letters of a word in two numbers. Each letter has a bit in either number, the first letter the lowest. A bit of `rises` is 1
// where the letter is 2 or 3, a bit of `marks` where it is 1 or 3.
#[derive(Clone, Copy)]
pub struct Bits {
    pub rises: u64,
    pub marks: u64,
}

// The same, with the number n that the word's parts sum to and how many letters it has.
#[derive(Clone, Copy)]
pub struct Packed {
    pub n: u64,
    pub rises: u64,
    pub marks: u64,
    pub letters: u64,
}

// The number that a word's chain sums to and how many parts it has.
#[derive(Clone, Copy)]
pub struct Parted {
    pub n: u64,
    pub k: u64,
}

// Whether a word is good.
pub fn is_good(letters: &[u8]) -> bool
    ensures { result ≡ reads true letters.now }
{
    let left = letters.len();
    readers::after_b(&letters, left) == 1
}

// The number that a word stands for; none where it is 2^64 or more. Any bytes will do: one above 3 marks no part and moves to no
// point.
pub fn weigh(letters: &[u8]) -> Option<u64>
    ensures { result ≡ weighed_of letters.now }
{
    let mut n: u64 = 0;
    for i in (0..letters.len()).rev() {
        n = weights::with_letter(letters[i], n)?;
    }
    Some(n)
}

// The sum of a record's parts, or refusal 8, 9 or 10.
pub fn judge_record(numbers: &[u16]) -> Result<u64, Refusal>
    ensures { result ≡ judged_of numbers.now }
{
    let codes = parts::codes::copy();
    let table = Table { codes: &codes };
    records::judge(table, numbers)
}

// The word of a record: its letters, then zeros up to 64, later places untouched. Told are the number of letters, or refusal 1 for
// fewer than 64 places, or what the record gets; with a refusal nothing is written.
pub fn write_word(numbers: &[u16], places: &mut [u8]) -> Result<u64, Refusal>
    ensures answer { result ≡ written_of numbers.now (length places.old) }
    ensures places { places.new
        ≡ letters_left numbers.now places.old
        (written_of numbers.now (length places.old)) }
{
    if places.len() < 64 {
        return Err(Refusal::LittleLent);
    }
    let codes = parts::codes::copy();
    let table = Table { codes: &codes };
    records::judge(table, numbers)?;
    Ok(letters::write_letters(table, numbers, places))
}

// The word of a record in two numbers, or refusal 8, 9 or 10. Nothing is lent for it.
pub fn pack_word(numbers: &[u16]) -> Result<Packed, Refusal>
    ensures { result ≡ packed_of numbers.now }
{
    let codes = parts::codes::copy();
    let table = Table { codes: &codes };
    packing::pack(table, numbers)
}

// A word in two numbers, or refusal 7 or 10. Nothing is lent for it.
pub fn pack_letters(letters: &[u8]) -> Result<Packed, Refusal>
    ensures { result ≡ packed_letters letters.now }
{
    if !is_good(letters) {
        return Err(Refusal::BadWord);
    }
    let n = weigh(letters).ok_or(Refusal::TooLarge)?;
    Ok(packing::pack_all(letters, n))
}

// The parts of the word that two numbers hold, by their numbers, largest part first. The first 64 places hold the numbers and then
// zeros; where fewer are lent, nothing is touched. Tells how many parts there are.
pub fn put_parts(rises: u64, marks: u64, places: &mut [u16]) -> u64
    ensures answer { result ≡ length (packed_chain rises marks) }
    ensures places { places.new ≡ parts_left rises marks places.old }
{
    let k = u64::from(marks.count_ones());
    if places.len() < 64 {
        return k;
    }
    to_parts::fill_places(rises, marks, places);
    k
}

// The parts of a word by their numbers, largest part first: the number that the parts sum to and how many they are, or refusal 1, 7
// or 10. The first 64 places hold the numbers and then zeros; with a refusal nothing is touched.
pub fn word_parts(letters: &[u8], places: &mut [u16]) -> Result<Parted, Refusal>
    ensures answer { result ≡ parted_of letters.now (length places.old) }
    ensures places { places.new
        ≡ numbers_left letters.now places.old
        (parted_of letters.now (length places.old)) }
{
    if places.len() < 64 {
        return Err(Refusal::LittleLent);
    }
    let word = pack_letters(letters)?;
    let k = put_parts(word.rises, word.marks, places);
    Ok(Parted { n: word.n, k })
}
