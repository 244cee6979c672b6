// The walk down to the binary chain, which has all its parts in row 0.
ghost use Rattle.std.specs.Prelude.{◌≡◌, ◌<◌, ◌≤◌, ◌*◌, ◌^◌, ◌+◌};
ghost use Rattle.moves.specs.Walks.{Fits, Phase, WalkRows};
ghost use Rattle.moves.specs.Rows.{Held};

use super::{ROWS, amounts};

// The lower of two rows, and the moves that emptied the upper one into it.
#[derive(Clone, Copy)]
struct Emptied {
    row: u64,
    moves: u64,
}

// Moves down at row x and row y above it until y is empty. Two rows of a chain always allow a move down while the upper one has a
// part; each move clears the lowest bits of y, so there are at most 64.
fn empty(x: u64, y: u64) -> Emptied
    requires { Fits x y × (x + 3 * y < 2 ^ 64) }
    ensures { (result.row ≡ 3 * y + x) × Phase x y result.moves × (result.moves ≤ 64) }
{
    let mut row = x;
    let mut above = y;
    let mut moves: u64 = 0;
    // Only the rows that a move leaves tell whether there is another, so no range counts the moves.
    while let Some(allowed) = amounts::fall(row, above) {
        row += 3 * allowed.by;
        above -= allowed.by;
        moves += 1;
    }
    Emptied { row, moves }
}

// Walks the rows down to the binary chain, and tells the number of moves. The highest row is emptied into the one below it, then that
// one, and so on: the rows above are empty, and no row is in the way of a move.
pub fn walk_down(rows: &mut [u64; ROWS]) -> u64
    requires { Held rows.old }
    ensures { WalkRows rows.old result rows.new }
{
    let mut moves: u64 = 0;
    for b in (0..ROWS - 1).rev() {
        let emptied = empty(rows[b], rows[b + 1]);
        rows[b] = emptied.row;
        rows[b + 1] = 0;
        moves += emptied.moves;
    }
    moves
}
