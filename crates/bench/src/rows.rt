// Tests of rows: whether they are a chain of n, and whether other rows are in the way of a move.
ghost use Rattle.std.specs.Prelude.{◌≡◌, ◌↔◌, IsTrue, ℕ, ◌≤◌, ◌^◌, length};
ghost use Rattle.moves.specs.Changes.{Free, Clear};
ghost use Rattle.moves.specs.Rows.{Laying};

use super::{ROWS, amounts};

// Whether the rows are those of a chain of n. From the highest row down, `least` is the lowest one bit of the rows above, 2^63 where they
// are all empty, and `sum` is what the rows above sum to. Each part above must be a multiple of each part of the row x, so x may have no
// bit above `least`. Three times the sum plus x is the new sum. It never falls, so once it would be above n the answer is no; this is
// tested before it is computed, and nothing overflows. An empty row is skipped.
pub fn is_chain(rows: &[u64; ROWS], n: u64) -> bool
    ensures { IsTrue result ↔ Laying n rows.now }
{
    let third = n / 3;
    let mut least: u64 = 1 << 63;
    let mut sum: u64 = 0;
    for i in (0..rows.len()).rev() {
        if third < sum {
            return false;
        }
        sum = 3 * sum;
        let x = rows[i];
        if x != 0 {
            if least <= x / 2 {
                return false;
            }
            if n - sum < x {
                return false;
            }
            sum += x;
            least = amounts::low_bit(x);
        }
    }
    sum == n
}

// Whether no row below b has a bit above g, a power of two: a row has none where its half is less than g.
pub fn is_free(rows: &[u64], b: usize, g: u64) -> bool
    requires { b ≤ length rows.now }
    ensures { IsTrue result ↔ Free b g rows.now }
{
    rows[..b].iter().all(|x| *x / 2 < g)
}

// Whether every row from b on is a multiple of p, a power of two: a row is one where it has no bit below p.
pub fn is_clear(rows: &[u64], b: usize, p: u64) -> bool
    requires { (b ≤ length rows.now) × ((e : ℕ) × (p ≡ 2 ^ e)) }
    ensures { IsTrue result ↔ Clear b p rows.now }
{
    rows[b..].iter().all(|x| *x & (p - 1) == 0)
}
