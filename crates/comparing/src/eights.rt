// Eight letters at once, as one number of 64 bits with the first letter highest. Two such numbers stand to each other as their
// letters do in the dictionary, for bytes of any value.
ghost use Rattle.std.specs.Prelude.{◌≡◌, [], ◌∷◌, ◌++◌, ◌+◌, ◌-◌, ◌≤◌, ◌<◌, eqb, length, take, drop, replicate};
ghost use Rattle.std.specs.Int.Bits.{bit_and};
ghost use Rattle.chains.specs.Words.{Word};
ghost use Rattle.comparing.specs.Eights.{EightOf, all_follow};

// The number of the eight letters from the place i on: one load and one byte swap.
pub fn eight_at(letters: &[u8], i: usize) -> u64
    requires { i + 8 ≤ length letters.now }
    ensures { EightOf (take 8 (drop i letters.now)) result }
{
    u64::from_be_bytes([
        letters[i],
        letters[i + 1],
        letters[i + 2],
        letters[i + 3],
        letters[i + 4],
        letters[i + 5],
        letters[i + 6],
        letters[i + 7],
    ])
}

// Eight letters without the first, and with another letter behind them.
fn with_last(x: u64, letter: u8) -> u64
    ensures { (u : Word) → EightOf u x → EightOf (drop 1 u ++ (letter ∷ [])) result }
{
    x % 0x0100_0000_0000_0000 * 0x0100 + u64::from(letter)
}

// The number of fewer than eight letters, with 3s in front of them.
pub fn few_letters(letters: &[u8]) -> u64
    requires { length letters.now < 8 }
    ensures { EightOf (replicate (8 - length letters.now) 3 ++ letters.now) result }
{
    let mut x: u64 = 0x0303_0303_0303_0303;
    for letter in letters {
        x = with_last(x, *letter);
    }
    x
}

// The bits that each of eight letters may have after the letter before it; before the first stands a 3. Bit 0 is always allowed. Bit 1
// is allowed where the letter has bit 0 too, or where the letter before has bit 1. No other bit is. So a letter is 0 to 3, and 2 only
// after 2 or 3.
pub fn allowed(x: u64) -> u64
    ensures { (u : Word) → EightOf u x → eqb (bit_and x result) x ≡ all_follow 3 u }
{
    let before = 0x0300_0000_0000_0000 + x / 0x0100;
    let raised = (x & 0x0101_0101_0101_0101) * 2;
    0x0101_0101_0101_0101 | (0x0202_0202_0202_0202 & (raised | before))
}

// Whether each of eight letters may stand after the one before it, the first after a 3.
pub fn follow(x: u64) -> bool
    ensures { (u : Word) → EightOf u x → result ≡ all_follow 3 u }
{
    x & allowed(x) == x
}
