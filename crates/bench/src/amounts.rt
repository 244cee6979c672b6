// How much a move takes, from the row or the two rows that it changes. A move of amount s takes 3 s from row b and gives s to row
// b + 1, or back. Either s = 2^m and less than 2^m is left in row b (the first kind), or s = 2^m - 2^c, the bits c to m - 1, and what
// is left in row b has its highest bit at c (the second kind).
ghost use Rattle.std.specs.Prelude.{◌≡◌, ◌<◌, ◌*◌, ◌^◌};
ghost use Rattle.moves.specs.Amounts.{top_bit, low_bit, rise_kind, rise_by, fall_kind, fall_by};
ghost use Rattle.bench.specs.Planning.{Allows, Numbered};

use refusals::Refusal;

// 003's two kinds of move.
#[derive(Clone, Copy, PartialEq, Eq)]
pub enum Kind {
    First,
    Second,
}

impl TryFrom<u8> for Kind {
    type Error = Refusal;

    ghost try_from_gives = { Numbered };

    fn try_from(number: u8) -> Result<Kind, Refusal> {
        match number {
            1 => Ok(Kind::First),
            2 => Ok(Kind::Second),
            _ => Err(Refusal::NoMove),
        }
    }
}

// A move that rows allow: its kind and its amount.
#[derive(Clone, Copy)]
pub struct Amount {
    pub kind: Kind,
    pub by: u64,
}

// The highest one bit of x: above it are only the leading zeros.
pub fn top_bit(x: u64) -> u64
    requires { 0 < x }
    ensures { result ≡ top_bit x }
{
    1 << (63 - x.leading_zeros())
}

// The lowest one bit of x: below it are only the trailing zeros.
pub fn low_bit(x: u64) -> u64
    requires { 0 < x }
    ensures { result ≡ low_bit x }
{
    1 << x.trailing_zeros()
}

// The move up that row x allows. In both kinds 2^m is half of the highest bit of x. The first takes 3 × 2^m, so x is at least that. The
// second takes 3 × 2^m - 3 × 2^c and leaves from 2^c to 2^(c+1) - 1. So 3 × 2^m - x is from 2^c + 1 to 2^(c+1), and one less, the gap,
// has its highest bit at c. Where the gap is 0, there is no move.
pub fn rise(x: u64) -> Option<Amount>
    ensures { Allows result (rise_kind x) (rise_by x) }
{
    if x < 2 {
        return None;
    }
    let half = top_bit(x) / 2;
    if 3 * half <= x {
        return Some(Amount {
            kind: Kind::First,
            by: half,
        });
    }
    let gap = 3 * half - 1 - x;
    if gap == 0 {
        return None;
    }
    let low = top_bit(gap);
    Some(Amount {
        kind: Kind::Second,
        by: half - low,
    })
}

// The move down that row x and row y above it allow. It takes the lowest bit of y, and no more where x is less than this bit (the first
// kind). Else it takes the whole run of ones that begins there (the second): adding the lowest bit carries through the run, so the
// lowest bit of the sum is 2^m, just past it.
pub fn fall(x: u64, y: u64) -> Option<Amount>
    requires { 2 * y < 2 ^ 64 }
    ensures { Allows result (fall_kind x y) (fall_by x y) }
{
    if y == 0 {
        return None;
    }
    let low = low_bit(y);
    if x < low {
        return Some(Amount {
            kind: Kind::First,
            by: low,
        });
    }
    let high = low_bit(y + low);
    Some(Amount {
        kind: Kind::Second,
        by: high - low,
    })
}
