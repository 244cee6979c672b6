// The part numbers of a chain from its rows.
ghost use Rattle.std.specs.Prelude.{◌≡◌, List, ◌+◌, ◌^◌, ◌≤◌, ◌<◌, length};
ghost use Rattle.std.proofs.lemmas.List.Edits.{sets};
ghost use Rattle.chains.specs.Chains.{Part, Chained, total};
ghost use Rattle.moves.specs.Rows.{rows_of};
ghost use Rattle.bench.specs.Telling.{Tellable, ToldRows, row_numbers};

use super::ROWS;

// Puts the numbers of the parts of row b, largest first, from place `at` on; `row` has a 1 for each. Tells the place after them.
fn tell_row(row: u64, b: u64, places: &mut [u16], at: usize) -> usize
    requires { at + length (row_numbers b row) ≤ length places.old }
    ensures value { result ≡ at + length (row_numbers b row) }
    ensures places_after { places.new ≡ sets places.old at (row_numbers b row) }
{
    let mut left = row;
    let end = at + row.count_ones() as usize;
    for i in at..end {
        let a = 63 - left.leading_zeros();
        places[i] = parts::part_number(u64::from(a), b);
        left -= 1 << a;
    }
    end
}

// Puts the numbers of all parts, largest first, in 64 places that are zero, and tells how many they are.
pub fn tell_rows(rows: &[u64; ROWS], places: &mut [u16]) -> u64
    requires { Tellable rows.now places.old }
    ensures { (c : List Part) → Chained c → total c < 2 ^ 64 → rows.now ≡ rows_of 41 c
        → ToldRows c result places.old places.new }
{
    let mut k = 0;
    for b in (0..rows.len()).rev() {
        k = tell_row(rows[b], b as u64, places, k);
    }
    k as u64
}
