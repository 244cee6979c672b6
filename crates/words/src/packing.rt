// A word in two numbers, a bit a letter: the first letter has the lowest bit. The bits of a record's word are put together from the
// largest part back, as the letters are written (letters.rt), but no place is written. The bits of a word that is given by its
// letters are put together from the last letter back.
ghost use Rattle.std.specs.Prelude.{◌↔◌, ◌≡◌, true, ◌^◌, ◌≤◌, ◌<◌};
ghost use Rattle.words.specs.Packed.{bits, rise, mark, packed_word, packed_of};
ghost use Rattle.words.specs.Walks.{point, Begun, Joins, rises_from, marks_from};

use super::entries::{Table, Threes};
use super::{Bits, Packed, records};
use parts::Exponents;
use refusals::Refusal;

// The letters from the point q up to p before those of `later`. `part` is 1 where q is a part.
fn with_path(later: Bits, q: Exponents, p: Exponents, part: u64) -> Bits
    requires { Joins (point q) (point p) part later.rises later.marks }
    ensures { (result.rises ≡ rises_from (point q) (point p) later.rises)
        × (result.marks ≡ marks_from (point q) (point p) part later.marks) }
{
    let up = p.b - q.b;
    let steps = up + (p.a - q.a);
    Bits {
        rises: (1 << up) - 1 + (later.rises << steps),
        marks: part + (later.marks << steps),
    }
}

// Whether no exponent of q is above that of p.
fn is_within(q: Exponents, p: Exponents) -> bool
    ensures { (result ≡ true) ↔ ((q.a ≤ p.a) × (q.b ≤ p.b)) }
{
    if p.a < q.a {
        return false;
    }
    q.b <= p.b
}

// The word of a record from its largest part back, and whether it has one, in one pass: from each part to the next, and from the last
// one to (0, 0). The numbers must descend, so all are in the table and no two are the same. Where the pass finds a refusal, the whole
// record is looked at again for the one that comes first.
fn pack_back(
    table: Table<'_>,
    threes: Threes<'_>,
    numbers: &[u16],
    largest: Exponents,
) -> Result<Packed, Refusal>
    requires { Begun table.codes.now threes.powers.now numbers.now (point largest) }
    ensures { result ≡ packed_of numbers.now }
{
    let mut found = Bits { rises: 1, marks: 1 };
    let mut n = threes.value_at(largest);
    let mut p = largest;
    let mut last = numbers[0];
    for i in 1..numbers.len() {
        let number = numbers[i];
        if last <= number {
            return Err(records::refusal(table, numbers));
        }
        let q = table.part_of(number);
        if !is_within(q, p) {
            return Err(records::refusal(table, numbers));
        }
        let Some(sum) = n.checked_add(threes.value_at(q)) else {
            return Err(records::refusal(table, numbers));
        };
        n = sum;
        found = with_path(found, q, p, 1);
        p = q;
        last = number;
    }
    let whole = with_path(found, Exponents { a: 0, b: 0 }, p, 0);
    Ok(Packed {
        n,
        rises: whole.rises,
        marks: whole.marks,
        letters: largest.a + largest.b + 1,
    })
}

// The word of a record, or refusal 8, 9 or 10.
pub fn pack(table: Table<'_>, numbers: &[u16]) -> Result<Packed, Refusal>
    ensures { result ≡ packed_of numbers.now }
{
    if numbers.len() == 0 {
        return Ok(Packed {
            n: 0,
            rises: 0,
            marks: 0,
            letters: 0,
        });
    }
    if 1344 <= numbers[0] {
        return Err(Refusal::UnknownPart);
    }
    let powers = parts::codes::powers();
    let threes = Threes { powers: &powers };
    let largest = table.part_of(numbers[0]);
    pack_back(table, threes, numbers, largest)
}

// The word that is given by its letters and stands for n. A letter of 0 to 3 tells its two bits by arithmetic alone, so no step
// branches on a letter.
pub fn pack_all(letters: &[u8], n: u64) -> Packed
    requires { (bits rise letters.now < 2 ^ 64) × (bits mark letters.now < 2 ^ 64) }
    ensures { result ≡ packed_word n letters.now }
{
    let mut rises: u64 = 0;
    let mut marks: u64 = 0;
    for i in (0..letters.len()).rev() {
        let letter = letters[i];
        rises = 2 * rises + u64::from(letter / 2);
        marks = 2 * marks + u64::from(letter % 2);
    }
    Packed {
        n,
        rises,
        marks,
        letters: letters.len() as u64,
    }
}
