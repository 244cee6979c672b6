// Zeroing the memory that a service is lent to work in. The places for its part numbers, letters or digits are zeroed where they are
// used, by the slice's own `fill`.
#![tactic(auto)]

ghost use Rattle.std.specs.Prelude.{◌≡◌};
ghost use Rattle.lent.specs.Lent.{fewer, memory_left, little_scratch, scratch_left};

// How many numbers the scratch of a service must have (`scratch_size` in specs/Lent.antt).
pub const SCRATCH: usize = 512;

// Zeroes the first `size` numbers of lent memory. Where it has fewer, nothing is touched.
pub fn clear_first(memory: &mut [u64], size: usize)
    ensures { memory.new ≡ memory_left size (fewer size memory.old) memory.old }
{
    if memory.len() < size {
        return;
    }
    memory[0..size].fill(0);
}

// The same of a lent scratch, with its first `SCRATCH` numbers.
pub fn clear_scratch(scratch: &mut [u64])
    ensures { scratch.new ≡ scratch_left (little_scratch scratch.old) scratch.old }
{
    clear_first(scratch, SCRATCH);
}
