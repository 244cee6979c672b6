// The number that a word stands for, a letter at a time from the last one back.
//
// A letter of 0 to 3 tells what it does by arithmetic alone: it marks a part if it is odd, and b rises if it is 2 or more. So no
// jump depends on which of 0 to 3 it is, which takes a seventh off the time of a line of kind 05.
ghost use Rattle.std.specs.Prelude.{◌≡◌, ◌∷◌, ◌+◌, ◌-◌, ◌*◌, ◌/◌, ◌^◌, ◌≤◌};
ghost use Rattle.chains.specs.Chains.{total};
ghost use Rattle.chains.specs.Words.{Word, chain_of};
ghost use Rattle.words.specs.Answers.{sized, weighed_of};

// (2^64 - 1) / 2 and (2^64 - 1) / 3.
const HALF: u64 = 9223372036854775807;

const THIRD: u64 = 6148914691236517205;

// The largest number of which twice, or three times where `up` is 1, and r more are below 2^64.
fn largest(up: u64, r: u64) -> u64
    requires { (up ≤ 1) × (r ≤ 1) }
    ensures { result ≡ (2 ^ 64 - 1 - r) / (2 + up) }
{
    if up == 0 { HALF } else { THIRD - r }
}

// Twice n, or three times where `up` is 1, and r more; none where it is 2^64 or more.
fn scaled(n: u64, up: u64, r: u64) -> Option<u64>
    requires { (up ≤ 1) × (r ≤ 1) }
    ensures { result ≡ sized (r + (2 + up) * n) }
{
    if largest(up, r) < n {
        return None;
    }
    Some(2 * n + up * n + r)
}

// What a letter before a word that stands for n makes of it: twice or three times as much, and one more for a part. A byte above 3
// changes nothing.
pub fn with_letter(letter: u8, n: u64) -> Option<u64>
    ensures { (w : Word) → total (chain_of w) ≡ n → result ≡ weighed_of (letter ∷ w) }
{
    if letter > 3 {
        return Some(n);
    }
    scaled(n, u64::from(letter / 2), u64::from(letter % 2))
}
