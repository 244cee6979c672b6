// Hexadecimal digits and numbers on slices of characters: document 01, 'Frames', and document 02, T-01. Every function here takes
// any input.
#![tactic(auto)]

ghost use Rattle.std.specs.Prelude.{◌≡◌, ◌%◌, ◌^◌};
ghost use Rattle.digits.specs.Digits.{digit_value, is_digit, value_or0, all_digits, number_of, digit_of, put_digits};

// The value of a character that is a digit: nothing else in the code says which characters are digits. A character below a range
// wraps to a large difference, so one test looks at both ends of the range. A capital and its small letter differ in bit 5 alone, so
// with that bit set one range holds both. With the letters first, the compiler makes no jump that depends on which digit it is.
fn value_of(c: u8) -> Option<u8>
    ensures { result ≡ digit_value c }
{
    let small = c | 32;
    let letter = small.wrapping_sub(b'a');
    if letter < 6 {
        return Some(letter + 10);
    }
    let decimal = c.wrapping_sub(b'0');
    if decimal < 10 {
        return Some(decimal);
    }
    None
}

// Whether a character is a digit.
#[tactic(auto, unfolding(crate::specs::Digits::is_digit))]
pub fn is_digit(c: u8) -> bool
    ensures { result ≡ is_digit c }
{
    value_of(c).is_some()
}

// The value of a character, and 0 where it is no digit.
#[tactic(auto, unfolding(crate::specs::Digits::value_or0))]
pub fn digit_value(c: u8) -> u64
    ensures { result ≡ value_or0 c }
{
    u64::from(value_of(c).unwrap_or(0))
}

// Whether every character of a line is a digit. The loop does not stop at a character that is none, as `all` would: then no jump
// depends on the characters, and the compiler looks at 16 of them at once.
pub fn all_digits(line: &[u8]) -> bool
    ensures { result ≡ all_digits line.now }
{
    let mut all = true;
    for c in line {
        all &= is_digit(*c);
    }
    all
}

// The number that the characters stand for, highest digit first, modulo 2^64: the number itself where they are at most 16.
pub fn read_number(part: &[u8]) -> u64
    ensures { result ≡ number_of part.now % 2 ^ 64 }
{
    let mut n: u64 = 0;
    for c in part {
        n = n.wrapping_mul(16) + digit_value(*c);
    }
    n
}

// The character of the lowest digit of n.
#[tactic(auto, using(crate::proofs::DigitLaws::digit_decimal, crate::proofs::DigitLaws::digit_capital))]
fn digit_of(n: u64) -> u8
    ensures { result ≡ digit_of (n % 16) }
{
    let v = (n % 16) as u8;
    if v < 10 {
        return b'0' + v;
    }
    b'A' + (v - 10)
}

// Writes the last k digits of n, highest first, at the start of `out`, and leaves what stands after them. Where `out` has fewer
// than k places, nothing is written.
pub fn put_number(out: &mut [u8], k: usize, n: u64)
    ensures { out.new ≡ put_digits k n out.old }
{
    if out.len() < k {
        return;
    }
    let mut left = n;
    for i in (0..k).rev() {
        out[i] = digit_of(left);
        left /= 16;
    }
}
