// The rows of a record's chain.
ghost use Rattle.std.specs.Prelude.{◌≡◌, []};
ghost use Rattle.lent.specs.Lent.{zeros};
ghost use Rattle.words.specs.Records.{Burned, record_parts};
ghost use Rattle.moves.specs.Rows.{rows_of};
ghost use Rattle.bench.specs.Benches.{opened};

use super::{BENCH, NUMBER, ROWS};

// Lays out the chain of a record in 41 rows that are zero: 2^a more in row b for each part 2^a × 3^b, from the smallest part on.
pub fn lay_out(numbers: &[u16], n: u64, rows: &mut [u64; ROWS])
    requires { Burned numbers.now n × (rows.old ≡ zeros 41) }
    ensures { rows.new ≡ rows_of 41 (record_parts numbers.now) }
{
    for i in (0..numbers.len()).rev() {
        let e = parts::exponents_at(numbers[i]);
        rows[e.b as usize] += 1 << e.a;
    }
}

// Lays out a bench of the chain of a record, with no name saved.
pub fn lay_bench(numbers: &[u16], n: u64, bench: &mut [u64; BENCH])
    requires { Burned numbers.now n }
    ensures { bench.new ≡ opened n (record_parts numbers.now) [] }
{
    *bench = [0; BENCH];
    lay_out(numbers, n, bench.first_chunk_mut().unwrap());
    bench[NUMBER] = n;
}
