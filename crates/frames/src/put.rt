// The digits of a reply, written one after the other into the bytes that are lent for it: document 01, 'Frames', and document 02,
// T-05 and T-06. They are 514, and every reply fits into them (`reply_short`).
ghost use Rattle.std.specs.Prelude.{◌≡◌, ◌+◌, ◌-◌, ◌*◌, ◌≤◌, length};
ghost use Rattle.digits.specs.Digits.{digits_of};
ghost use Rattle.lent.specs.Lent.{zeros};
ghost use Rattle.frames.specs.Put.{put_at};
ghost use Rattle.words.specs.Walks.{point};
ghost use Rattle.refusals.specs.Refusals.{number_of};
ghost use Rattle.parts.specs.Parts.{largest_of};
ghost use Rattle.frames.specs.ReplyDigits.{single_digits, values_digits, numbers_digits, record_digits, head_digits};
ghost use Rattle.frames.specs.ReplyDigits.{chain_digits, letters_digits};

use parts::Exponents;
use refusals::Refusal;

// The last k digits of n, after the first `at` bytes. Where the next digits go is told, here and below.
fn put_at(out: &mut [u8; 514], at: usize, k: usize, n: u64) -> usize
    requires { at + k ≤ 514 }
    ensures value { result ≡ at + k }
    ensures out_after { out.new ≡ put_at at (digits_of k n) out.old }
{
    digits::put_number(&mut out[at..], k, n);
    at + k
}

// A refusal's number as one byte.
pub fn put_refusal(out: &mut [u8; 514], refusal: Refusal) -> usize
    ensures value { result ≡ 2 }
    ensures out_after { out.new ≡ put_at 0 (digits_of 2 (number_of refusal)) out.old }
{
    put_at(out, 0, 2, u64::from(u8::from(refusal)))
}

// 00 and a single number.
pub fn put_single(out: &mut [u8; 514], x: u64) -> usize
    ensures value { result ≡ length (single_digits x) }
    ensures out_after { out.new ≡ put_at 0 (single_digits x) out.old }
{
    let at = put_at(out, 0, 2, 0);
    put_at(out, at, 16, x)
}

// What stands before a record: 00, n and the position.
fn put_head(out: &mut [u8; 514], n: u64, position: u64) -> usize
    ensures value { result ≡ length (head_digits n position) }
    ensures out_after { out.new ≡ put_at 0 (head_digits n position) out.old }
{
    let after_zero = put_at(out, 0, 2, 0);
    let after_n = put_at(out, after_zero, 16, n);
    put_at(out, after_n, 16, position)
}

// The part numbers, two bytes each, after the first `at` bytes.
fn put_numbers(out: &mut [u8; 514], at: usize, numbers: &[u16]) -> usize
    requires { at + 4 * length numbers.now ≤ 514 }
    ensures value { result ≡ at + length (numbers_digits numbers.now) }
    ensures out_after { out.new ≡ put_at at (numbers_digits numbers.now) out.old }
{
    let mut end = at;
    for number in numbers {
        end = put_at(out, end, 4, u64::from(*number));
    }
    end
}

// A record after the first `at` bytes: how many parts it has, a and b of the largest, their numbers.
fn put_record(out: &mut [u8; 514], at: usize, largest: Exponents, numbers: &[u16]) -> usize
    requires { (at + 6 + 4 * length numbers.now ≤ 514) × (point largest ≡ largest_of numbers.now) }
    ensures value { result ≡ at + length (record_digits numbers.now) }
    ensures out_after { out.new ≡ put_at at (record_digits numbers.now) out.old }
{
    let after_parts = put_at(out, at, 2, numbers.len() as u64);
    let after_a = put_at(out, after_parts, 2, largest.a);
    let after_b = put_at(out, after_a, 2, largest.b);
    put_numbers(out, after_b, numbers)
}

// A chain: 00, n, its position, its record.
pub fn put_chain(
    out: &mut [u8; 514],
    n: u64,
    position: u64,
    largest: Exponents,
    numbers: &[u16],
) -> usize
    requires { (length numbers.now ≤ 64) × (point largest ≡ largest_of numbers.now) }
    ensures value { result ≡ length (chain_digits n position numbers.now) }
    ensures out_after { out.new ≡ put_at 0 (chain_digits n position numbers.now) out.old }
{
    let at = put_head(out, n, position);
    put_record(out, at, largest, numbers)
}

// The price after a chain, which ends before `at`.
pub fn put_price(out: &mut [u8; 514], at: usize, price: u64) -> usize
    requires { at + 8 ≤ 514 }
    ensures value { result ≡ at + 8 }
    ensures out_after { out.new ≡ put_at at (digits_of 8 price) out.old }
{
    put_at(out, at, 8, price)
}

// Letters, one byte each, after the first `at` bytes.
fn put_bytes(out: &mut [u8; 514], at: usize, letters: &[u8]) -> usize
    requires { at + 2 * length letters.now ≤ 514 }
    ensures value { result ≡ at + length (values_digits 1 letters.now) }
    ensures out_after { out.new ≡ put_at at (values_digits 1 letters.now) out.old }
{
    let mut end = at;
    for letter in letters {
        end = put_at(out, end, 2, u64::from(*letter));
    }
    end
}

// The letters of a tree word: 00, how many there are, then the letters.
pub fn put_letters(out: &mut [u8; 514], letters: &[u8]) -> usize
    requires { length letters.now ≤ 255 }
    ensures value { result ≡ length (letters_digits letters.now) }
    ensures out_after { out.new ≡ put_at 0 (letters_digits letters.now) out.old }
{
    let after_zero = put_at(out, 0, 2, 0);
    let at = put_at(out, after_zero, 2, letters.len() as u64);
    put_bytes(out, at, letters)
}

// Zeros from `at` up to 514.
pub fn fill(out: &mut [u8; 514], at: usize)
    requires { at ≤ 514 }
    ensures { out.new ≡ put_at at (zeros (514 - at)) out.old }
{
    out[at..].fill(0);
}
