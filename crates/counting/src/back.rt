// From a word to its position, by a walk back along its path while the rows of counts come down.
//
// A word of the list of n is known by its path: bit i of a number says whether b rises at the i-th letter. Suppose b
// rises at the point (a, b). The words that agree with it up to there and raise a instead come before it. Their number is the cell's
// minus that of the cell above, so it is taken as row b is filled.
ghost use Rattle.std.specs.Prelude.{◌≡◌, suc, ◌-◌, ◌/◌, ◌%◌, ◌<◌, ◌≤◌, false, length};
ghost use mathlib.Core.List.{Memᴰ};
ghost use Rattle.chains.specs.Words.{Word};
ghost use Rattle.chains.specs.Listing.{list_of, count_before, ways};
ghost use Rattle.words.specs.Packed.{bits, rise};
ghost use Rattle.grid.specs.Grid.{rest_at};
ghost use Rattle.counting.specs.Table.{CountRows, CountsFilled};
ghost use Rattle.counting.specs.Back.{TopOf, BackAsked, path_to};

use super::rows;

// The highest bit of a number that is 1, and the number without it.
#[derive(Clone, Copy)]
struct Top {
    bit: usize,
    below: u64,
}

fn top_of(x: u64) -> Top
    requires { 0 < x }
    ensures { TopOf x result.bit result.below × (result.bit < 64) }
{
    let bit = 63 - x.leading_zeros() as usize;
    Top {
        bit,
        below: x - (1 << bit),
    }
}

// Fills row b and tells how many words begin with a rise of a at the point (a, b), where b can rise too.
fn rising_a(n: u64, a: usize, b: usize, scratch: &mut [u64; lent::SCRATCH]) -> u64
    requires { CountRows n (suc b) scratch.old × (a < 64) × (b < 41) }
    ensures value { 2 ≤ rest_at n a b → rest_at n a b % 3 ≤ 1 → result ≡ ways false (rest_at n a b / 2) }
    ensures counts_filled { CountsFilled n b scratch.old scratch.new }
{
    let above = scratch[rows::place_of(b + 1) + a];
    rows::fill_next(n, b, scratch);
    scratch[rows::place_of(b) + a].wrapping_sub(above)
}

// The words before, along a path whose last point is not counted: b rises as often as it has ones.
fn walk_back(n: u64, path: u64, b: usize, scratch: &mut [u64; lent::SCRATCH]) -> u64
    requires { BackAsked n path b scratch.old }
    ensures value { (w : Word) → Memᴰ w (list_of n) → 0 < length w → path ≡ path_to w (length w - 1)
        → result ≡ count_before w (list_of n) }
    ensures counts_filled { CountsFilled n 0 scratch.old scratch.new }
{
    let mut left = path;
    let mut before: u64 = 0;
    for row in (0..b).rev() {
        let top = top_of(left);
        left = top.below;
        let rising = rising_a(n, top.bit - row, row, scratch);
        before = before.wrapping_add(rising);
    }
    before
}

// The position of a word of the list of n, told by where b rises in it; some number where no word of the list rises so. Leaves the
// rows of n in the scratch. A path with more than 40 rises is that of no word.
pub fn position_in(n: u64, rises: u64, scratch: &mut [u64; lent::SCRATCH]) -> u64
    ensures value { (w : Word) → Memᴰ w (list_of n) → rises ≡ bits rise w → result ≡ count_before w (list_of n) }
    ensures counts_filled { CountsFilled n 0 scratch.old scratch.new }
{
    if rises == 0 {
        rows::fill_down(n, 0, scratch);
        return 0;
    }
    let path = top_of(rises).below;
    let b = path.count_ones() as usize;
    if 40 < b {
        rows::fill_down(n, 0, scratch);
        return 0;
    }
    rows::fill_down(n, b, scratch);
    walk_back(n, path, b, scratch)
}
