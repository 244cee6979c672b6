// The states of a bench: whether they are chains, and copying one over another.
ghost use Rattle.std.specs.Prelude.{◌≡◌, ◌↔◌, IsTrue, ◌<◌, suc};
ghost use Rattle.moves.specs.Rows.{Laying};
ghost use Rattle.bench.specs.Sound.{state_at, saved_in, Sound};
ghost use Rattle.bench.specs.Benches.{with_state};

use super::{BENCH, NAMES, NUMBER, ROWS, SAVED, rows};

// Whether a state was saved under a name and is no chain of n.
fn is_lost(bench: &[u64; BENCH], name: usize, n: u64) -> bool
    requires { name < 8 }
    ensures { IsTrue result
        ↔ ((saved_in name bench.now ≡ 0 → ⊥) × (Laying n (state_at (suc name) bench.now) → ⊥)) }
{
    if bench[SAVED + name] == 0 {
        return false;
    }
    let rows = bench[ROWS * name + ROWS..].first_chunk().unwrap();
    !rows::is_chain(rows, n)
}

// Whether the present state and each saved one is a chain of the bench's n. States under names never saved are not looked at.
pub fn is_sound(bench: &[u64; BENCH]) -> bool
    ensures { IsTrue result ↔ Sound bench.now }
{
    let n = bench[NUMBER];
    if !rows::is_chain(bench.first_chunk().unwrap(), n) {
        return false;
    }
    for name in 0..NAMES {
        if is_lost(bench, name, n) {
            return false;
        }
    }
    true
}

// Copies one state over another. State 0 is the present one, state i + 1 is saved under the name i.
pub fn copy_state(bench: &mut [u64; BENCH], from: usize, to: usize)
    requires { (from < 9) × (to < 9) }
    ensures { bench.new ≡ with_state to (state_at from bench.old) bench.old }
{
    let first = ROWS * from;
    bench.copy_within(first..first + ROWS, ROWS * to);
}
