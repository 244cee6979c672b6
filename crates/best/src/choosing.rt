// Choosing: the best word of n within the limits, by the rows of keys.
ghost use Rattle.best.specs.Chosen.{limits_of, prices_of};
ghost use Rattle.best.specs.Choosing.{ChosenBy};

use super::terms::Priced;
use super::{Limits, Prices, keys, walk};
use words::Bits;

// The best word of n within the limits; none where no chain is within them. The number 0 has the empty word, within any limits. The
// key of no word counts 256 parts, which is above every limit.
pub fn choose(
    n: u64,
    limits: Limits,
    prices: Prices,
    scratch: &mut [u64; lent::SCRATCH],
) -> Option<Priced>
    ensures { ChosenBy n (limits_of limits) (prices_of prices) result }
{
    if n == 0 {
        let word = Bits { rises: 0, marks: 0 };
        return Some(Priced { word, price: 0 });
    }
    let terms = keys::terms_of(limits, prices);
    keys::fill_rows(n, scratch, &terms);
    let key = scratch[64];
    let k = key / keys::PART;
    // By `as`: tried with `u64::from`, and the proof lost that the limit is a byte.
    if k > limits.parts as u64 {
        return None;
    }
    let word = walk::best_word(n, scratch, &terms);
    Some(Priced {
        word,
        price: key % keys::PART,
    })
}
