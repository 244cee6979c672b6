// How two path words stand to each other in the dictionary.
#![tactic(auto)]

mod eights;
mod judging;
mod order;

ghost use Rattle.std.specs.Prelude.{◌≡◌};
ghost use Rattle.comparing.specs.Answers.{compared_of};

use refusals::Refusal;
use std::cmp::Ordering;

// How u stands to v in the dictionary, less where it is earlier, or refusal 7 if either is not good.
pub fn compare_words(u: &[u8], v: &[u8]) -> Result<Ordering, Refusal>
    ensures { result ≡ compared_of u.now v.now }
{
    if judging::is_good_by_eights(u) & judging::is_good_by_eights(v) {
        return Ok(order::in_order(u, v));
    }
    Err(Refusal::BadWord)
}
