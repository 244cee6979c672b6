// The moves of a chain of 41 rows. Planning a move tells its amount, or that there is no such move; making it changes two rows.
//
// The rows are a lent part of the bench, and each function asks that they are a chain's (`Held`). A struct that lends them with this as
// its ghost field would owe it between the two writes of a move, where it does not hold; one that owns them would be copied out of the
// bench and back for each call.
ghost use Rattle.std.specs.Prelude.{◌≡◌, ◌<◌, ◌^◌, MatchResult};
ghost use Rattle.moves.specs.Rows.{Rows, Held};
ghost use Rattle.moves.specs.Plans.{Raisable, Lowerable};
ghost use Rattle.moves.specs.Changes.{past_of, raised, lowered};
ghost use Rattle.moves.specs.RowMoves.{RowMove};
ghost use Rattle.refusals.specs.declared.Refusal.TheVariants.{NoMove};
ghost use Rattle.bench.specs.Planning.{kind_number, UpPlan, DownPlan};

use super::amounts::Kind;
use super::{ROWS, amounts, rows};
use refusals::Refusal;

// The amount of the move up of a kind at row b, or none. Row b alone tells the amount. No row below may have a bit above the amount's
// lowest one: the new part with that bit in row b + 1 must be a multiple of every part below.
fn plan_up(rows: &[u64; ROWS], kind: Kind, b: usize) -> Option<u64>
    requires { Held rows.now }
    ensures { UpPlan (kind_number kind) b rows.now result }
{
    if ROWS - 1 <= b {
        return None;
    }
    let allowed = amounts::rise(rows[b])?;
    if allowed.kind != kind {
        return None;
    }
    let g = amounts::low_bit(allowed.by);
    if rows::is_free(rows, b, g) {
        return Some(allowed.by);
    }
    None
}

// 2^(m+1), the highest bit that a move down puts into row b. The amount of the move is 2^m in the first kind, and 2^m less its own
// lowest bit in the second.
fn past(kind: Kind, by: u64) -> u64
    requires { (past_of (kind_number kind) by < 2 ^ 64) × (0 < by) }
    ensures { result ≡ past_of (kind_number kind) by }
{
    match kind {
        Kind::First => 2 * by,
        Kind::Second => 2 * (by + amounts::low_bit(by)),
    }
}

// The amount of the move down of a kind at row b, or none. Rows b and b + 1 tell the amount. Every row above must be a multiple of the
// highest bit that the move puts into row b. This and `plan_up` stay two functions: they ask other rows, and another test of them.
fn plan_down(rows: &[u64; ROWS], kind: Kind, b: usize) -> Option<u64>
    requires { Held rows.now }
    ensures { DownPlan (kind_number kind) b rows.now result }
{
    if ROWS - 1 <= b {
        return None;
    }
    let allowed = amounts::fall(rows[b], rows[b + 1])?;
    if allowed.kind != kind {
        return None;
    }
    let p = past(kind, allowed.by);
    if rows::is_clear(rows, b + 2, p) {
        return Some(allowed.by);
    }
    None
}

// Makes a move up of amount s: takes 3 s from row b and gives s to row b + 1, which keeps the sum.
fn raise(rows: &mut [u64; ROWS], b: usize, s: u64)
    requires { Raisable b s rows.old }
    ensures { rows.new ≡ raised b s rows.old }
{
    rows[b] -= 3 * s;
    rows[b + 1] += s;
}

// Makes a move down of amount s: gives 3 s to row b and takes s from row b + 1, which keeps the sum. Here `raise` adds where this
// subtracts and the other way round, and what each asks of the rows differs: one function would need a switch on which to do.
fn lower(rows: &mut [u64; ROWS], b: usize, s: u64)
    requires { Lowerable b s rows.old }
    ensures { rows.new ≡ lowered b s rows.old }
{
    rows[b] += 3 * s;
    rows[b + 1] -= s;
}

// Makes a move of a kind, up or down, at row b. Where there is none, the rows are as they were. `up` comes from the caller of the
// bench, so one test here is plainer than a step that is handed in.
pub fn move_rows(rows: &mut [u64; ROWS], kind: Kind, up: bool, b: usize) -> Result<(), Refusal>
    requires { Held rows.old }
    ensures { MatchResult result
        (λ _. RowMove (kind_number kind) up b rows.old rows.new)
        (λ e. (e ≡ NoMove) × (rows.new ≡ rows.old) × ((R : Rows) → RowMove (kind_number kind) up b rows.old R → ⊥)) }
{
    if up {
        let Some(s) = plan_up(rows, kind, b) else {
            return Err(Refusal::NoMove);
        };
        raise(rows, b, s);
        return Ok(());
    }
    let Some(s) = plan_down(rows, kind, b) else {
        return Err(Refusal::NoMove);
    };
    lower(rows, b, s);
    Ok(())
}
