// From a position to its word, by a walk over the rows of counts along the letters of the word.
//
// The walk goes up, against the order in which the rows are filled, and six rows are kept. So it goes in rounds of six rows. After a
// rise of b the words that may follow are the list of the rest itself, and a new round starts with the rest as the number.
ghost use Rattle.std.specs.Prelude.{◌+◌, ◌<◌};
ghost use Rattle.counting.specs.Forward.{RowsFor, RaisedAsked, RaisedTold, Ready, Passed, SameWalk, Start, Found};

use super::rows;
use words::Bits;

// A walk along the word at a position. The rows of m stand in the scratch, and the walk stands at their point (a, b). `rest` is what
// is left there, `total` how many words may follow and `left` the position among them; `free` is 1 at the start and where b has risen
// last, else 0. `rises` and `marks` are the letters passed, a bit each: whether b rises, and whether the point is a part.
#[derive(Clone, Copy)]
struct Walk {
    m: u64,
    a: usize,
    b: usize,
    free: u64,
    rest: u64,
    total: u64,
    left: u64,
    rises: u64,
    marks: u64,
}

// How many words begin with a rise of b: the number above, where the remainder by three is 1, and for the free reader also where it
// is 0.
fn raised_b(m: u64, a: usize, b: usize, free: u64, rest: u64, scratch: &[u64; lent::SCRATCH]) -> u64
    requires { RaisedAsked m a b free rest scratch.now }
    ensures { RaisedTold free rest result }
{
    let above = scratch[64 * b + 64 + a];
    let rem = rest % 3;
    above * (rem % 2 + (2 - rem) / 2 * free)
}

// One letter of the walk: a rises while the position left is below the words with a rise of a.
fn step(n: u64, i: u64, at: usize, scratch: &[u64; lent::SCRATCH], w: Walk) -> Walk
    requires { Ready n i at w.m w.a w.b w.free w.rest w.total w.left w.rises w.marks scratch.now }
    ensures { Passed n i (at + 1) result.free result.rest result.total result.left result.rises result.marks
        × RowsFor result.m result.a result.b result.rest scratch.now }
{
    let rest = w.rest;
    let raised = raised_b(w.m, w.a, w.b, w.free, rest, scratch);
    let rising = w.total - raised;
    if w.left < rising {
        return Walk {
            m: w.m,
            a: w.a + 1,
            b: w.b,
            free: 0,
            rest: rest / 2,
            total: rising,
            left: w.left,
            rises: w.rises,
            marks: w.marks + ((rest % 2) << at),
        };
    }
    Walk {
        m: w.m,
        a: w.a,
        b: w.b + 1,
        free: 1,
        rest: rest / 3,
        total: raised,
        left: w.left - rising,
        rises: w.rises + (1 << at),
        marks: w.marks + ((rest % 3) << at),
    }
}

// Where the walk has left the six rows, those of the rest are filled, and the walk stands at their first point.
fn with_rows(scratch: &mut [u64; lent::SCRATCH], w: Walk) -> Walk
    requires { RowsFor w.m w.a w.b w.rest scratch.old }
    ensures { RowsFor result.m result.a result.b result.rest scratch.new × (result.b < 6)
        × SameWalk w.free w.rest w.total w.left w.rises w.marks
        result.free result.rest result.total result.left result.rises result.marks }
{
    if w.b < 6 {
        return w;
    }
    rows::fill_down(w.rest, 1, scratch);
    Walk {
        m: w.rest,
        a: 0,
        b: 0,
        free: w.free,
        rest: w.rest,
        total: w.total,
        left: w.left,
        rises: w.rises,
        marks: w.marks,
    }
}

// The word at the position i of the list of n, which has `count` words, more than i. The rows of n stand in the scratch. The word of
// the number 0 has no letters; every other one ends in a 3.
pub fn word_in(n: u64, count: u64, i: u64, scratch: &mut [u64; lent::SCRATCH]) -> Bits
    requires { Start n count i scratch.old }
    ensures { Found n i result.rises result.marks }
{
    if n == 0 {
        return Bits { rises: 0, marks: 0 };
    }
    // How many letters there will be is not known before the rest is 1, so no range gives their places.
    let mut at: usize = 0;
    let mut w = Walk {
        m: n,
        a: 0,
        b: 0,
        free: 1,
        rest: n,
        total: count,
        left: i,
        rises: 0,
        marks: 0,
    };
    while 1 < w.rest {
        w = with_rows(scratch, w);
        w = step(n, i, at, scratch, w);
        at += 1;
    }
    Bits {
        rises: w.rises + (1 << at),
        marks: w.marks + (1 << at),
    }
}
