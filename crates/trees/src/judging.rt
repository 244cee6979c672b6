// What a tree word gets before it is read: its number or a refusal.
ghost use Rattle.std.specs.Prelude.{◌≡◌};
ghost use Rattle.trees.specs.Answers.{foreign, tree_judged};

use super::{numbers, producing};
use refusals::Refusal;

// Whether some letter is not 1, 2 or 3.
fn is_foreign(letters: &[u8]) -> bool
    ensures { result ≡ foreign letters.now }
{
    letters.iter().any(|letter| *letter == 0 || 3 < *letter)
}

// The number of a tree word, or refusal 15 for a letter outside 1 to 3, 10 where the number reaches 2^64, 15 where the lines do not
// produce the word, in this order.
pub fn judge(letters: &[u8]) -> Result<u64, Refusal>
    ensures { result ≡ tree_judged letters.now }
{
    if is_foreign(letters) {
        return Err(Refusal::NoTreeWord);
    }
    let n = numbers::weigh(letters).ok_or(Refusal::TooLarge)?;
    if producing::is_produced(letters, n) {
        Ok(n)
    } else {
        Err(Refusal::NoTreeWord)
    }
}
