// Filling the rows of counts in the scratch: each of the 41 rows is lent on as a part that starts in the middle, and filled there by
// one row step. Rows 0 to 5 have blocks of their own, 64 numbers each; row 6 and those above it take turns in the block behind them,
// each filled over the row above it. The last block has the rests of the rows' first columns (grid, Grid).
//
// A row is filled from its last column down, each cell from the one right of it and the one above it. The rest of column a is
// m >> a, its third q >> a, where m and q are the rests of the first columns of the row and of the row above. Two masks, made once
// a row, hold the remainders by three of all its rests, so no cell is divided, and a bit of a mask makes a factor and no branch.
//
// A cell holds the number of the free reader, at the start and after b has risen. That of the other reader is carried along a row,
// and is stored nowhere.
ghost use Rattle.std.specs.Prelude.{◌≡◌, suc, ◌<◌, ◌≤◌, length};
ghost use Rattle.chains.specs.Listing.{count};
ghost use Rattle.grid.specs.Grid.{RowAsked, RowFilled, row_place};
ghost use Rattle.counting.specs.Table.{count_cell, LiveAsked, CountRows, CountsFilled};

// The live columns of row b below `top`, from there down. The number above counts for both readers where the remainder by three of
// the column's rest is 1, and where it is 0 for the free reader alone.
//
// Bit a of `ones` is 1 where the remainder in column a is 1, bit a of `zeros` where it is 0. `right` is the number of the reader after
// a has risen.
fn fill_live(part: &mut [u64], up: usize, b: usize, m: u64, q: u64, top: usize)
    requires { LiveAsked b m q up top part.old }
    ensures { RowFilled count_cell b m 0 part.old part.new }
{
    let ones = grid::ones(m, q);
    let zeros = grid::zeros(m, q);
    let mut right = 1;
    for a in (0..top).rev() {
        let above = part[up + a];
        right += above * ((ones >> a) % 2);
        part[a] = right + above * ((zeros >> a) % 2);
    }
}

// The row step: row b, in the part that begins at it, the row above at `up`. At 0 it is filled over the row above. The last live
// column has the rest 1, and one way; behind it nothing is left, and nothing is written.
fn fill_row(part: &mut [u64], up: usize, b: usize, m: u64, q: u64)
    requires { RowAsked count_cell b m q up part.old }
    ensures { RowFilled count_cell b m 0 part.old part.new }
{
    let live = grid::live_columns(m);
    if live == 0 {
        return;
    }
    let top = live - 1;
    part[top] = 1;
    fill_live(part, up, b, m, q, top);
}

// Where row b begins.
pub fn place_of(b: usize) -> usize
    ensures { result ≡ row_place 0 6 b }
{
    if b < 6 {
        return 64 * b;
    }
    384
}

// Row k of n, where the rows above it are filled. The step is called with either distance to the row above written out, which makes
// two loops of it and saves an eighth of the time.
pub fn fill_next(n: u64, k: usize, scratch: &mut [u64; lent::SCRATCH])
    requires { CountRows n (suc k) scratch.old × (k < 41) }
    ensures { CountsFilled n k scratch.old scratch.new }
{
    let m = scratch[448 + k];
    let q = scratch[449 + k];
    if k < 6 {
        fill_row(&mut scratch[64 * k..], 64, k, m, q);
        return;
    }
    fill_row(&mut scratch[384..], 0, k, m, q);
}

// The rows of n from the last one in which something is left down to row k.
pub fn fill_down(n: u64, k: usize, scratch: &mut [u64; lent::SCRATCH])
    ensures { CountsFilled n k scratch.old scratch.new }
{
    let rows = grid::put_rests(n, &mut scratch[448..490]);
    for b in (k..rows).rev() {
        fill_next(n, b, scratch);
    }
}

// The count of n, whose rows stand in the scratch. All rests of the number 0 are 0, so it is answered apart: it has one chain, the
// empty one.
pub fn count_in(n: u64, scratch: &[u64; lent::SCRATCH]) -> u64
    requires { CountRows n 0 scratch.now }
    ensures { result ≡ count n }
{
    if n == 0 {
        return 1;
    }
    scratch[0]
}
