// Replies whole: their digits in the bytes that are lent, then zeros up to 514.
ghost use Rattle.std.specs.Prelude.{◌≡◌, ◌≤◌, length};
ghost use Rattle.parts.specs.Parts.{largest_of, same_part};
ghost use Rattle.words.specs.Walks.{point};
ghost use Rattle.frames.specs.Replies.{refused_as, served_with, or_sixteen};
ghost use Rattle.frames.specs.ReplyDigits.{single_digits, chain_digits, priced_digits, letters_digits};
ghost use Rattle.frames.specs.Calls.{Told, parts_in, found_reply};

use super::put;
use parts::Exponents;
use ranking::Found;
use refusals::Refusal;

// A refused line.
pub fn tell_refusal(out: &mut [u8; 514], refusal: Refusal) -> Result<u64, Refusal>
    ensures { Told (refused_as refusal) result out.old out.new }
{
    let k = put::put_refusal(out, refusal);
    put::fill(out, k);
    Err(refusal)
}

// A single number: a count, or the residue of a run.
pub fn tell_single(out: &mut [u8; 514], x: u64) -> Result<u64, Refusal>
    ensures { Told (served_with (single_digits x)) result out.old out.new }
{
    let k = put::put_single(out, x);
    put::fill(out, k);
    Ok(k as u64)
}

// A chain of n, by its position, the exponents of its largest part and its part numbers.
pub fn tell_chain(
    out: &mut [u8; 514],
    n: u64,
    position: u64,
    largest: Exponents,
    numbers: &[u16],
) -> Result<u64, Refusal>
    requires { (length numbers.now ≤ 64) × (point largest ≡ largest_of numbers.now) }
    ensures { Told (served_with (chain_digits n position numbers.now)) result out.old out.new }
{
    let k = put::put_chain(out, n, position, largest, numbers);
    put::fill(out, k);
    Ok(k as u64)
}

// A record that was read, with the exponents told in its line: its chain, or 16 where they are not those of its largest part.
pub fn tell_record(
    out: &mut [u8; 514],
    n: u64,
    position: u64,
    told: Exponents,
    numbers: &[u16],
) -> Result<u64, Refusal>
    requires { length numbers.now ≤ 64 }
    ensures { Told
        (or_sixteen (same_part (point told) (largest_of numbers.now))
        (served_with (chain_digits n position numbers.now)))
        result out.old out.new }
{
    if parts::is_largest(told, numbers) {
        tell_chain(out, n, position, told, numbers)
    } else {
        tell_refusal(out, Refusal::WrongExponents)
    }
}

// A chain with its price. The exponents of the largest part follow from its number.
pub fn tell_priced(
    out: &mut [u8; 514],
    n: u64,
    position: u64,
    numbers: &[u16],
    price: u64,
) -> Result<u64, Refusal>
    requires { length numbers.now ≤ 64 }
    ensures { Told (served_with (priced_digits n position numbers.now price)) result
        out.old out.new }
{
    let k = put::put_chain(out, n, position, parts::largest_of(numbers), numbers);
    let end = put::put_price(out, k, price);
    put::fill(out, end);
    Ok(end as u64)
}

// The letters of a tree word.
pub fn tell_letters(out: &mut [u8; 514], letters: &[u8]) -> Result<u64, Refusal>
    requires { length letters.now ≤ 255 }
    ensures { Told (served_with (letters_digits letters.now)) result out.old out.new }
{
    let k = put::put_letters(out, letters);
    put::fill(out, k);
    Ok(k as u64)
}

// What a service found, its part numbers in the places.
pub fn tell_found(
    out: &mut [u8; 514],
    found: Result<Found, Refusal>,
    places: &[u16],
) -> Result<u64, Refusal>
    requires { (parts_in found ≤ 64) × (64 ≤ length places.now) }
    ensures { Told (found_reply found places.now) result out.old out.new }
{
    match found {
        Ok(found) => {
            let numbers = &places[0..found.k as usize];
            tell_chain(
                out,
                found.n,
                found.position,
                parts::largest_of(numbers),
                numbers,
            )
        }
        Err(refusal) => tell_refusal(out, refusal),
    }
}
