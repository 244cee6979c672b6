// Running a chain on residues: document 02, T-02. The path of the chain is followed back from the largest part, with a residue
// modulo m that is doubled, tripled and added to.
#![tactic(auto)]

mod steps;

ghost use Rattle.std.specs.Prelude.{◌≡◌};
ghost use Rattle.running.specs.Ran.{ran_of};

use refusals::Refusal;
use steps::Run;

// 2^63, the largest modulus.
const LARGEST: u64 = 1 << 63;

// The chain whose part numbers are `numbers`, largest part first, run on x modulo m. Refuses with 13 for a modulus of 0 or above
// 2^63, with 14 for an x that is not below m, and then as a record is refused, with 8, 9 or 10.
pub fn run_chain(numbers: &[u16], m: u64, x: u64) -> Result<u64, Refusal>
    ensures { result ≡ ran_of numbers.now m x }
{
    if m == 0 {
        return Err(Refusal::BadModulus);
    }
    if LARGEST < m {
        return Err(Refusal::BadModulus);
    }
    if m <= x {
        return Err(Refusal::BadResidue);
    }
    let word = words::pack_word(numbers)?;
    Ok(Run { m, x }.along(word.rises, word.marks, word.letters))
}
