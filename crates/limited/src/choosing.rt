// The cheapest word of n within the limits, and the count of chains with at most K parts, each read off a table.
ghost use Rattle.std.specs.Prelude.{◌≡◌, min};
ghost use Rattle.chains.specs.Best.{count_up_to};
ghost use Rattle.best.specs.Chosen.{limits_of, prices_of};
ghost use Rattle.limited.specs.Choosing.{ChosenBy};

use super::{TABLE, table, walk};
use best::{Limits, Priced, Prices};
use words::Bits;

// A limit on parts above 64 excludes nothing, as 64 does.
fn at_most_64(parts: u8) -> usize
    ensures { result ≡ min parts 64 }
{
    usize::from(parts.min(64))
}

// The cheapest word of n within the limits; none where no chain is within them. The number 0 has the empty word, within any limits.
pub fn choose(n: u64, limits: Limits, prices: Prices, scratch: &mut [u64; TABLE]) -> Option<Priced>
    ensures { ChosenBy n (limits_of limits) (prices_of prices) result }
{
    if n == 0 {
        let word = Bits { rises: 0, marks: 0 };
        return Some(Priced { word, price: 0 });
    }
    let most = at_most_64(limits.parts);
    let terms = table::terms_of(limits, prices);
    table::fill_rows(&terms, n, scratch, most);
    let key = scratch[most];
    if key >= table::NONE {
        return None;
    }
    let keys = walk::Keys {
        n,
        most,
        terms: &terms,
        memory: scratch,
    };
    Some(Priced {
        word: keys.cheapest_word(),
        price: key / table::PRICE,
    })
}

// How many chains of n have at most `parts` parts. All rests of the number 0 are 0, so it is answered apart: it has one chain, the empty
// one.
pub fn count(n: u64, parts: u8, scratch: &mut [u64; TABLE]) -> u64
    ensures { result ≡ count_up_to parts n }
{
    if n == 0 {
        return 1;
    }
    let most = at_most_64(parts);
    table::fill_rows(&table::Counts, n, scratch, most);
    scratch[most]
}
