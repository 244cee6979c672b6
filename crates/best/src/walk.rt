// The walk along the turns of the rows of keys that finds the best word. It goes from the point (0, 0) up, row by row: in a row it
// passes all columns in which a rises at once, up to the one in which b rises. The letter at the point (a, b) has the index a + b.
//
// The column a is kept as the number 2^a: so a row is read by masks, and no shift waits for the column found in the row before.
ghost use Rattle.std.specs.Prelude.{◌≡◌, ◌+◌, ◌<◌};
ghost use Rattle.words.specs.Packed.{bits, rise, mark};
ghost use Rattle.best.specs.Walk.{best_word, KeyStart, ColumnAsked, ColumnFound, WalkedTo, RowWalk};

use super::keys;
use super::terms::Terms;
use words::Bits;

// A point of the walk, whose column is 2^a, and the bits of the letters before it.
#[derive(Drop)]
struct Walk {
    column: u64,
    b: usize,
    rises: u64,
    marks: u64,
}

// The first column from `column` on in which b rises, or the row's last one, whose rest is 1. m and q are the rests of the first
// columns of the row and of the row above. In `column` the reader is the free one, and b rises by the turn. In a later one a has
// risen before, so b rises only where the remainder by three is 1 too. It is the lowest one bit, once those below `column` are cut
// off.
fn turn_column(m: u64, q: u64, turns: u64, column: u64) -> u64
    requires { ColumnAsked m q column }
    ensures { ColumnFound m turns column result }
{
    let last = 1 << (63 - m.leading_zeros());
    let found = (turns & (grid::ones(m, q) | column)) | last;
    1 << (found & !(column - 1)).trailing_zeros()
}

// One row of the walk. The letters of the columns that it passes are the bits of m there. Where it is not the end, b rises by the
// letter 2 or 3: 3 where the remainder by three is 1. The number and the terms are there for the contract: the walk itself reads the rests
// and turns alone, so a struct of all three would only carry what no code reads.
fn walk_row(n: u64, scratch: &[u64; lent::SCRATCH], terms: &Terms, w: Walk) -> Walk
    requires { RowWalk terms.now.costs terms.now.doublings terms.now.triplings n scratch.now w.column w.b w.rises w.marks }
    ensures walked_to { WalkedTo terms.now.costs terms.now.doublings terms.now.triplings n
        result.column result.b result.rises result.marks }
    ensures b_bound { w.column + w.b < result.column + result.b }
{
    let b = w.b;
    let row = keys::row_at(scratch, b);
    let column = turn_column(row.m, row.q, scratch[128 + b], w.column);
    let marks = w.marks + ((row.m & (column - w.column)) << b);
    if column > row.m / 2 {
        return Walk {
            column,
            b,
            rises: w.rises,
            marks,
        };
    }
    Walk {
        column,
        b: b + 1,
        rises: w.rises + (column << b),
        marks: marks + ((grid::ones(row.m, row.q) & column) << b),
    }
}

// The best word of n, in two numbers. Each letter adds its bits at its index; the last letter is 3. At a point the rest is 2 or
// more where the column is at most half of the rest of the row's first column.
pub fn best_word(n: u64, scratch: &[u64; lent::SCRATCH], terms: &Terms) -> Bits
    requires { KeyStart terms.now.costs terms.now.doublings terms.now.triplings n scratch.now }
    ensures rises_value { result.rises ≡ bits rise (best_word terms.now.costs terms.now.doublings terms.now.triplings n) }
    ensures marks_value { result.marks ≡ bits mark (best_word terms.now.costs terms.now.doublings terms.now.triplings n) }
{
    let mut w = Walk {
        column: 1,
        b: 0,
        rises: 0,
        marks: 0,
    };
    // In which row the walk ends is known at its end only, so no range gives the rows.
    while w.column <= scratch[448 + w.b] / 2 {
        w = walk_row(n, scratch, terms, w);
    }
    let last = w.column << w.b;
    Bits {
        rises: w.rises + last,
        marks: w.marks + last,
    }
}
