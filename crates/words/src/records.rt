// A burned record, part numbers with the largest part first: document 01's refusals 8, 9 and 10, each looked for in the whole
// record before the next. The table that is lent holds the codes of the parts, and `threes` the powers of 3.
ghost use Rattle.std.specs.Prelude.{◌↔◌, ◌≡◌, true, false, ◌||◌, ltb, length};
ghost use Rattle.chains.specs.Chains.{total};
ghost use Rattle.chains.specs.Divides.{Above};
ghost use Rattle.parts.specs.Parts.{sum_of};
ghost use Rattle.words.specs.Records.{record_parts, beyond, chained_test, judged_of};
ghost use Rattle.words.specs.Walks.{point, NoSum};

use super::entries::{Table, Threes, value_of};
use parts::Exponents;
use refusals::Refusal;

// Whether there are more than 64 part numbers, or one of 1,344 or more.
pub fn is_outside(numbers: &[u16]) -> bool
    ensures { result ≡ (ltb 64 (length numbers.now) || beyond numbers.now) }
{
    if 64 < numbers.len() {
        return true;
    }
    for number in numbers {
        if 1344 <= *number {
            return true;
        }
    }
    false
}

// Whether p stands above q on the grid, and is not q: then the part p is a proper multiple of q.
fn is_above(p: Exponents, q: Exponents) -> bool
    ensures { (result ≡ true) ↔ Above (point p) (point q) }
{
    if p.a < q.a {
        return false;
    }
    if p.b < q.b {
        return false;
    }
    (q.a < p.a) | (q.b < p.b)
}

// Whether each part is a proper multiple of the next.
pub fn is_chained(table: Table<'_>, numbers: &[u16]) -> bool
    requires { beyond numbers.now ≡ false }
    ensures { result ≡ chained_test (record_parts numbers.now) }
{
    for i in 1..numbers.len() {
        let p = table.part_of(numbers[i - 1]);
        let q = table.part_of(numbers[i]);
        if !is_above(p, q) {
            return false;
        }
    }
    true
}

// The sum of the parts; none where it is 2^64 or more.
fn sum_of(table: Table<'_>, threes: Threes<'_>, numbers: &[u16]) -> Option<u64>
    requires { beyond numbers.now ≡ false }
    ensures { result ≡ sum_of (total (record_parts numbers.now)) }
{
    let mut sum: u64 = 0;
    for number in numbers {
        sum = sum.checked_add(value_of(table, threes, *number))?;
    }
    Some(sum)
}

// The refusal of a record that gets no sum.
pub fn refusal(table: Table<'_>, numbers: &[u16]) -> Refusal
    requires { NoSum numbers.now }
    ensures { Err result ≡ judged_of numbers.now }
{
    if is_outside(numbers) {
        return Refusal::UnknownPart;
    }
    if !is_chained(table, numbers) {
        return Refusal::NotChained;
    }
    Refusal::TooLarge
}

// What a record gets: a refusal, or the sum of its parts.
pub fn judge(table: Table<'_>, numbers: &[u16]) -> Result<u64, Refusal>
    ensures { result ≡ judged_of numbers.now }
{
    if is_outside(numbers) {
        return Err(Refusal::UnknownPart);
    }
    if !is_chained(table, numbers) {
        return Err(Refusal::NotChained);
    }
    let powers = parts::codes::powers();
    let threes = Threes { powers: &powers };
    sum_of(table, threes, numbers).ok_or(Refusal::TooLarge)
}
