// Whether a word is good, eight letters at a time. Only the comparison uses it.
ghost use Rattle.std.specs.Prelude.{◌≡◌, true};
ghost use Rattle.chains.specs.Words.{Word, reads};
ghost use Rattle.comparing.specs.Eights.{EightOf};

use super::eights;

// Whether eight letters are a good word: each may stand after the one before it, and the last is 3. One comparison tells both. Clearing
// the bits that are not allowed cannot raise x, and setting the two bits of a last 3 cannot lower it. So the two results are equal only
// if neither changes x.
fn is_good_eight(x: u64) -> bool
    ensures { (u : Word) → EightOf u x → result ≡ reads true u }
{
    x & eights::allowed(x) == x | 3
}

// Whether a word is good: the answer of the two readers. A word of fewer than eight letters gets 3s in front, which change nothing. In
// any other the eighth letter of a number is the first of the next, so that each two letters side by side are in one number. The last
// number is that of the last eight letters, and may share more of them with the one before.
pub fn is_good_by_eights(letters: &[u8]) -> bool
    ensures { result ≡ reads true letters.now }
{
    if letters.len() < 8 {
        return is_good_eight(eights::few_letters(letters));
    }
    let last = letters.len() - 8;
    // Each number begins with the last letter of the one before.
    let step = 7;
    for i in (0..last).step_by(step) {
        if !eights::follow(eights::eight_at(letters, i)) {
            return false;
        }
    }
    is_good_eight(eights::eight_at(letters, last))
}
