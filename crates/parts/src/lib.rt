// Parts 2^a × 3^b below 2^64 and their numbers in the part table.
#![tactic(auto)]

pub mod codes;
mod octaves;
pub mod table;

ghost use Rattle.std.specs.Prelude.{◌↔◌, ◌≡◌, true, get_or};
ghost use Rattle.chains.specs.Chains.{Part, value, ProperMultiple};
ghost use Rattle.parts.specs.Parts.{exponents_at, largest_of, same_part, part_number, number_of, sum_at, sum_of};

// A part's exponents.
#[derive(Clone, Copy)]
pub struct Exponents {
    pub a: u64,
    pub b: u64,
}

// The entry of a lent table that a part number names; 0 past the end.
pub fn value_of(table: &[u64], number: u16) -> u64
    ensures { result ≡ get_or table.now number 0 }
{
    let i = usize::from(number);
    if i < table.len() { table[i] } else { 0 }
}

// The exponents of a number that is a part; of any other number the answer is free. The lowest one bit gives a; the rest is 3^b,
// whose length in bits gives b.
pub fn exponents_of(v: u64) -> Exponents
    ensures { (p : Part) → value p ≡ v → (result.a ≡ p.a) × (result.b ≡ p.b) }
{
    if v == 0 {
        return Exponents { a: 0, b: 0 };
    }
    let a = v.trailing_zeros();
    let odd = v >> a;
    let length = 64 - odd.leading_zeros();
    Exponents {
        a: u64::from(a),
        b: u64::from(length) * 323 / 512,
    }
}

// The exponents of the part with a number; 0 and 0 where no part has it, from 1344 on. By arithmetic alone: the parts from 2^l up to
// below 2^(l+1) are the octave l. The number's octave is found, and then its place in the octave. For b up to 40, 3^b has
// 1623 b / 1024 binary digits after the first, so the part of octave l with 3^b has a = l - 1623 b / 1024.
pub fn exponents_at(number: u16) -> Exponents
    ensures { record { a = result.a; b = result.b } ≡ exponents_at number }
{
    if number >= 1344 {
        return Exponents { a: 0, b: 0 };
    }
    let i = u64::from(number);
    let l = octaves::octave_at(i);
    let first = octaves::parts_below(l);
    let most = octaves::parts_below(l + 1) - first - 1;
    let b = octaves::triplings_at(most, i - first);
    let a = l - 1623 * b / 1024;
    Exponents { a, b }
}

// How many entries of the table are smaller than 2^a × 3^b. Below 2^64 this is the part's number; else it is 1344, which is no
// part's number.
pub fn part_number(a: u64, b: u64) -> u16
    ensures { result ≡ part_number (record { a = a; b = b }) }
{
    number_of(a, b).unwrap_or(1344)
}

// The number of the part 2^a × 3^b, or none where it is 2^64 or more, by arithmetic alone. For b up to 40, 3^b has 1623 b / 1024 binary digits after the first. The
// smaller parts are the a × b with both exponents smaller, those with b alone smaller and those with a alone smaller: how many the
// latter two are is told by a quadratic in b and one in a.
pub fn number_of(a: u64, b: u64) -> Option<u16>
    ensures { result ≡ number_of (record { a = a; b = b }) }
{
    if a > 63 {
        return None;
    }
    if b > 40 {
        return None;
    }
    if a + 1623 * b / 1024 > 63 {
        return None;
    }
    let number = a * b + (b * (203 * b + 328) + 180) / 256 + (a * (323 * a + 832) + 400) / 1024;
    Some(number as u16)
}

// The number of a record's largest part, which comes first; 1344, which is no part's number, for the record of no parts.
fn first_of(numbers: &[u16]) -> u16
    ensures { exponents_at result ≡ largest_of numbers.now }
{
    if numbers.len() == 0 {
        return 1344;
    }
    numbers[0]
}

// The exponents of a record's largest part. Both are 0 for the record of no parts, and where no part has the first number.
pub fn largest_of(numbers: &[u16]) -> Exponents
    ensures { record { a = result.a; b = result.b } ≡ largest_of numbers.now }
{
    exponents_at(first_of(numbers))
}

// Whether exponents are those of a record's largest part, as `largest_of` gives them. The number that they have is compared with the
// first number: this takes less time than to work out the exponents of the first number.
pub fn is_largest(told: Exponents, numbers: &[u16]) -> bool
    ensures { result ≡ same_part (record { a = told.a; b = told.b }) (largest_of numbers.now) }
{
    let first = first_of(numbers);
    if first >= 1344 {
        return (told.a == 0) & (told.b == 0);
    }
    part_number(told.a, told.b) == first
}

// Whether x is a proper multiple of y.
pub fn is_proper_multiple(x: u64, y: u64) -> bool
    ensures { (result ≡ true) ↔ ProperMultiple x y }
{
    if y == 0 {
        return x == 0;
    }
    if x <= y {
        return false;
    }
    x % y == 0
}

// The sum of the parts that `numbers` name in a lent table; none where it is 2^64 or more.
pub fn sum_of(table: &[u64], numbers: &[u16]) -> Option<u64>
    ensures { result ≡ sum_of (sum_at table.now numbers.now) }
{
    let mut sum: u64 = 0;
    for number in numbers {
        sum = sum.checked_add(value_of(table, *number))?;
    }
    Some(sum)
}
