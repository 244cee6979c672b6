// Filling the rows of keys in the scratch. Every row has the block that begins at 64: it is lent on as a part that starts in the
// middle, and one row step fills it over the row above. What the walk needs of a row is kept as one number, a bit a column: the
// turns of row b stand at 128 + b. The rests of the rows stand from 448 on.
//
// A row is filled from its last column down, each cell from the one right of it and the one above it. The rest of column a is
// m >> a, where m is the rest of the row's first column, and q that of the row above. Two masks, made once a row, hold the
// remainders by three of all its rests, so no cell is divided, and a bit chooses a cost without a branch.
//
// A cell is not cut at the key of no word: it holds a number whose cut is the key. Each cost is at most that key, so no sum wraps
// where something is left.
ghost use Rattle.std.specs.Prelude.{◌≡◌, ◌%◌, ◌≤◌, ◌<◌, length};
ghost use Rattle.best.specs.KeyTable.{letter_costs, TermsOf, pick};
ghost use Rattle.best.specs.Chosen.{limits_of, prices_of};
ghost use Rattle.best.specs.KeyRows.{NoKeys, BelowAsked, BelowFilled, row_of, LiveRow, RowOfKeys, RowTold, KeysFilled};

use super::terms::Terms;
use super::{Limits, Prices};

// What a part counts in a key.
pub const PART: u64 = 1 << 32;

// The key of no word.
pub const NONE: u64 = 1 << 40;

// By what the words are weighed. It tells too that the prices are of 16 bits, which bounds every key.
pub fn terms_of(limits: Limits, prices: Prices) -> Terms
    ensures { TermsOf (letter_costs (prices_of prices)) (limits_of limits) (prices_of prices)
        result.costs result.doublings result.triplings }
{
    let d = u64::from(prices.doubling);
    let t = u64::from(prices.tripling);
    let part_2 = PART + u64::from(prices.addition_2);
    let part_3 = PART + u64::from(prices.addition_3);
    Terms {
        costs: [d, part_2 + d, t, part_3 + t, PART],
        doublings: usize::from(limits.doublings),
        triplings: usize::from(limits.triplings),
    }
}

// A row: the rest of its first column, and that of the row above.
#[derive(Clone, Copy)]
pub struct Row {
    pub b: usize,
    pub m: u64,
    pub q: u64,
}

// Row b of the scratch.
pub fn row_at(scratch: &[u64; lent::SCRATCH], b: usize) -> Row
    requires { b < 41 }
    ensures { result ≡ row_of scratch.now b }
{
    Row {
        b,
        m: scratch[448 + b],
        q: scratch[449 + b],
    }
}

// x where the last bit of `bits` is 1, else y.
fn picked(bits: u64, x: u64, y: u64) -> u64
    ensures { result ≡ pick (bits % 2) x y }
{
    if bits % 2 == 1 { x } else { y }
}

// No word from `from` up to but without `end`, in a row. A call of its own, so that the loop of `fill_below` keeps its registers: with it
// inlined choosing took 3 % longer.
#[inline(never)]
fn fill_none(part: &mut [u64], from: usize, end: usize)
    requires { (from ≤ end) × (end ≤ 64) × (64 ≤ length part.old) }
    ensures { NoKeys from end part.old part.new }
{
    part[from..end].fill(NONE);
}

// The columns below `start`, where those from `start` on are filled and `right` is the number of the reader after a has risen in
// column `start`. Tells the turns: bit a is 1 where the free reader's number in column a is less than that by a rise of a.
//
// Bit a of `ones` is 1 where the remainder by three of column a's rest is 1, bit a of `twos` where it is 2 (grid, Masks). At 1 both
// readers let b rise, by the letter 3; at 0 the free reader alone, by the letter 2; at 2 none. Where nothing is left above, the
// remainder is 2: such a cell is unspecified, so a sum with it may wrap, and is not chosen. The costs are read once, before the
// loop: they stay in registers, and each choice is compiled to a conditional move.
fn fill_below(part: &mut [u64], row: Row, start: usize, right: u64, terms: &Terms) -> u64
    requires { BelowAsked terms.now.costs terms.now.doublings terms.now.triplings row.b row.m row.q start right part.old }
    ensures { BelowFilled terms.now.costs terms.now.doublings terms.now.triplings row.b row.m start part.old part.new result }
{
    let m = row.m;
    let ones = grid::ones(m, row.q);
    let twos = grid::twos(m, row.q);
    let [a_rises, part_a_rises, b_rises, part_b_rises, _] = terms.costs;
    let mut after = right;
    let mut turns = 0;
    for a in (0..start).rev() {
        let above = part[a];
        let by_b = above.wrapping_add(picked(ones >> a, part_b_rises, b_rises));
        let third = picked(twos >> a, NONE, by_b);
        let half = after + picked(m >> a, part_a_rises, a_rises);
        part[a] = half.min(third);
        turns = turns + turns + u64::from(third < half);
        after = picked(ones >> a, half.min(third), half);
    }
    turns
}

// A row in which something is left, within the limit on triplings. In the column `top` the rest is 1; behind it nothing is left,
// and nothing is written.
fn fill_live(part: &mut [u64], row: Row, top: usize, terms: &Terms) -> u64
    requires { LiveRow terms.now.costs terms.now.doublings terms.now.triplings row.b row.m row.q top part.old }
    ensures { RowTold terms.now.costs terms.now.doublings terms.now.triplings row.b row.m part.old part.new result }
{
    if top <= terms.doublings {
        let end = terms.costs[4];
        part[top] = end;
        return fill_below(part, row, top, end, terms);
    }
    let start = terms.doublings + 1;
    fill_none(part, start, top + 1);
    fill_below(part, row, start, NONE, terms)
}

// The row step: fills one row, in the part that begins at it, over the row above, and tells its turns. Only the cells where
// something is left are written; where b is above its limit, none of them has a word.
fn fill_row(part: &mut [u64], row: Row, terms: &Terms) -> u64
    requires { RowOfKeys terms.now.costs terms.now.doublings terms.now.triplings row.b row.m row.q part.old }
    ensures { RowTold terms.now.costs terms.now.doublings terms.now.triplings row.b row.m part.old part.new result }
{
    if row.m == 0 {
        return 0;
    }
    let top = 63 - row.m.leading_zeros() as usize;
    if row.b > terms.triplings {
        fill_none(part, 0, top + 1);
        return 0;
    }
    fill_live(part, row, top, terms)
}

// The rows of n, from the last one in which something is left down, each over the one above it.
pub fn fill_rows(n: u64, scratch: &mut [u64; lent::SCRATCH], terms: &Terms)
    ensures { KeysFilled terms.now.costs terms.now.doublings terms.now.triplings n 0 scratch.old scratch.new }
{
    let rows = grid::put_rests(n, &mut scratch[448..490]);
    for b in (0..rows).rev() {
        let row = row_at(scratch, b);
        let turns = fill_row(&mut scratch[64..], row, terms);
        scratch[128 + b] = turns;
    }
}
