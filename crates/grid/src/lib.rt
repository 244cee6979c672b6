// A table filled row by row: the rests of its rows, the live columns of a row, and the remainders by three in a row. Its theory is in
// specs/.
#![tactic(auto)]

ghost use Rattle.std.specs.Prelude.{◌≡◌, ◌+◌, ◌*◌, ◌^◌, ◌≤◌, ◌<◌, length};
ghost use Rattle.grid.specs.Masks.{ones_of, zeros_of, twos_of};
ghost use Rattle.grid.specs.Grid.{rests_of, live_rows};

// Puts the rests of the first columns of the rows from 0 on into a lent part, where m is that of row 0. Tells how many of these rows
// have something left. A table is filled from the last of them down.
pub fn put_rests(m: u64, part: &mut [u64]) -> usize
    ensures value { result ≡ live_rows m (length part.old) }
    ensures part_after { part.new ≡ rests_of m (length part.old) }
{
    part.fill(0);
    let mut rest = m;
    for i in 0..part.len() {
        if rest == 0 {
            return i;
        }
        part[i] = rest;
        rest /= 3;
    }
    part.len()
}

// How many columns of a row are live, where m is the rest of its first column: as many as m has bits.
pub fn live_columns(m: u64) -> usize
    ensures { (result ≤ 64) × (m < 2 ^ result) × (2 ^ result ≤ 2 * m + 1) }
{
    64 - m.leading_zeros() as usize
}

// The mask of a row whose bit a is 1 where the rest of column a leaves the remainder 1 by three. m and q are the rests of the first
// columns of the row and of the row above. The rest is three times its third and the remainder, so the last bits of rest and third
// differ where the remainder is odd.
pub fn ones(m: u64, q: u64) -> u64
    ensures { result ≡ ones_of m q }
{
    m ^ q
}

// The same for the remainder 0. The rest is twice the rest right of it and bit a of m, so where the remainder is not 1, it is 0 if
// bit a + 1 of the ones and bit a of m are the same, and 2 if they differ.
pub fn zeros(m: u64, q: u64) -> u64
    ensures { result ≡ zeros_of m q }
{
    let ones = m ^ q;
    !(ones | ((ones >> 1) ^ m))
}

// The same for the remainder 2: where it is neither 0 nor 1.
pub fn twos(m: u64, q: u64) -> u64
    ensures { result ≡ twos_of m q }
{
    let ones = m ^ q;
    (ones | ((ones >> 1) ^ m)) ^ ones
}
