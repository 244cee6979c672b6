// What words are weighed by where the least key is looked for, and a word that is found.
ghost use Rattle.best.specs.KeyTable.{Low};

use words::Bits;

// What the letters 0 to 3 cost where they are not the last, and what the last point costs; and the limits A and B on doublings and
// triplings. No cost is above the key of no word.
#[derive(Clone, Copy)]
pub struct Terms {
    pub costs: [u64; 5],
    pub doublings: usize,
    pub triplings: usize,
    pub ghost low: { Low costs },
}

// A word that is chosen, and the price of its chain.
#[derive(Clone, Copy)]
pub struct Priced {
    pub word: Bits,
    pub price: u64,
}
