// Filling the table: blocks of 130 numbers, one block for each of the 1,344 points below 2^64. In a block the number of the free reader,
// at the start and after b has risen, stands at k where k parts are still allowed, and that of the reader after a has risen at 65 + k.
// The blocks stand row by row. A row has as many as there are points 2^a × 3^b below 2^64, so the block right of a block stands 130 on,
// and the one above it `up` on, the size of the row.
//
// The same rows are filled with counts or with least keys; only a cell differs, so it is a trait's, `Cells`. A cell needs one number of
// the block to the right and one of the block above. With a part at its point, the letter uses up one of the parts allowed. Only the
// numbers for up to `most` parts are filled, and nothing where nothing is left of n.
ghost use Rattle.std.specs.Prelude.{◌≡◌, true, false, ℕ, suc, ◌*◌, ◌<◌};
ghost use Rattle.best.specs.Chosen.{limits_of, prices_of};
ghost use Rattle.best.specs.KeyTable.{TermsOf};
ghost use Rattle.limited.specs.Table.{Row, Filled, RowLent, RowFilled, TableFilled, width};
ghost use Rattle.limited.specs.Cells.{cheap_list, counts, key_in, CellAsked};

use super::TABLE;
use best::{Limits, Prices, Terms};

// What a unit of the price counts in a key, where a part counts 1.
pub const PRICE: u64 = 128;

// The key of no word.
pub const NONE: u64 = 1 << 40;

// By what the words are weighed. It tells too that the prices are of 16 bits, which bounds every key.
pub fn terms_of(limits: Limits, prices: Prices) -> Terms
    ensures { TermsOf (cheap_list (prices_of prices)) (limits_of limits) (prices_of prices)
        result.costs result.doublings result.triplings }
{
    let d = u64::from(prices.doubling);
    let t = u64::from(prices.tripling);
    let part_2 = PRICE * (u64::from(prices.addition_2) + d) + 1;
    let part_3 = PRICE * (u64::from(prices.addition_3) + t) + 1;
    Terms {
        costs: [PRICE * d, part_2, PRICE * t, part_3, 1],
        doublings: usize::from(limits.doublings),
        triplings: usize::from(limits.triplings),
    }
}

// A point, the rest there, and how far on the block above its own stands.
#[derive(Clone, Copy)]
pub struct Place {
    pub a: usize,
    pub b: usize,
    pub m: u64,
    pub up: usize,
}

// What stands in a block for a number of parts: the number of the free reader and that of the reader after a has risen.
#[derive(Clone, Copy)]
pub struct Cell {
    pub free: u64,
    pub after_a: u64,
}

impl Cell {
    // The same for both readers.
    fn of_both(number: u64) -> Cell
        ensures { result ≡ record { free = number; after_a = number } }
    {
        Cell {
            free: number,
            after_a: number,
        }
    }
}

// What a table is filled with: what the cells of each row mean, and how one is found from those to its right and above it.
pub trait Cells {
    ghost rows: { Self → ℕ → Row };

    // The cell for k parts at a place, whose block is at the start of the part.
    fn cell(&self, part: &[u64], at: Place, k: usize) -> Cell
        requires { CellAsked (rows self.now) at.b at.a at.m at.up k part.now }
        ensures free { result.free ≡ rows self.now at.b at.a at.m true k }
        ensures after_a { result.after_a ≡ rows self.now at.b at.a at.m false k };
}

// How many words each reader has from a point on.
#[derive(Clone, Copy)]
pub struct Counts;

impl Cells for Counts {
    ghost rows = { λ it. counts };

    // Where no part is allowed there is none, since a word ends in a part.
    fn cell(&self, part: &[u64], at: Place, k: usize) -> Cell {
        if k == 0 {
            return Cell::of_both(0);
        }
        if at.m == 1 {
            return Cell::of_both(1);
        }
        let right = part[195 + k - (at.m % 2) as usize];
        let r = (at.m % 3) as usize;
        if r == 2 {
            return Cell::of_both(right);
        }
        let free = right + part[at.up + k - r];
        if r == 1 {
            return Cell::of_both(free);
        }
        Cell {
            free,
            after_a: right,
        }
    }
}

// The least key of each reader from a point on, within the limits.
impl Cells for Terms {
    ghost rows = { λ it. key_in it.costs it.doublings it.triplings };

    fn cell(&self, part: &[u64], at: Place, k: usize) -> Cell {
        if k == 0 || at.a > self.doublings || at.b > self.triplings {
            return Cell::of_both(NONE);
        }
        if at.m == 1 {
            return Cell::of_both(self.costs[4]);
        }
        let odd = (at.m % 2) as usize;
        let half = NONE.min(part[195 + k - odd] + self.costs[odd]);
        let r = (at.m % 3) as usize;
        if r == 2 {
            return Cell::of_both(half);
        }
        let free = half.min(part[at.up + k - r] + self.costs[2 + r]);
        if r == 1 {
            return Cell::of_both(free);
        }
        Cell {
            free,
            after_a: half,
        }
    }
}

// The block at the start of the part.
fn fill_block<C: Cells>(cells: &C, part: &mut [u64], at: Place, most: usize)
    requires { CellAsked (C.rows cells.now) at.b at.a at.m at.up most part.old }
    ensures { Filled (C.rows cells.now at.b at.a at.m) (suc most) part.old part.new }
{
    for k in 0..=most {
        let cell = cells.cell(part, at, k);
        part[65 + k] = cell.after_a;
        part[k] = cell.free;
    }
}

// The row step: fills a row, in the part that begins at it, from its last live column down. `first` is the place of its first column.
// Each block is lent on as a part that starts in the middle.
fn fill_row<C: Cells>(cells: &C, part: &mut [u64], first: Place, most: usize)
    requires lent { RowLent (C.rows cells.now (suc first.b)) first.m first.up (suc most) part.old }
    requires few { most < 65 }
    ensures { RowFilled (C.rows cells.now first.b) first.m first.up (suc most) 0 part.old part.new }
{
    for a in (0..grid::live_columns(first.m)).rev() {
        let at = Place {
            a,
            m: first.m >> a,
            ..first
        };
        fill_block(cells, &mut part[130 * a..], at, most);
    }
}

// How many numbers row b has.
pub fn row_size(b: usize) -> usize
    requires { b < 41 }
    ensures { result ≡ 130 * width b }
{
    130 * (64 - 1623 * b / 1024)
}

// All rows of n, the last one first.
pub fn fill_rows<C: Cells>(cells: &C, n: u64, scratch: &mut [u64; TABLE], most: usize)
    requires { most < 65 }
    ensures { TableFilled (C.rows cells.now) n (suc most) 0 scratch.old scratch.new }
{
    let mut at = TABLE;
    for b in (0..41).rev() {
        let up = row_size(b);
        at -= up;
        let first = Place {
            a: 0,
            b,
            m: n / 3u64.pow(b as u32),
            up,
        };
        fill_row(cells, &mut scratch[at..], first, most);
    }
}
