// The numbers of the parts that two numbers hold, in places that are lent.
//
// The highest mark is that of the largest part, and the marks are taken from there down: a step a part, and none for the other
// letters. The letters before a part's own tell its exponents by how many ones and zeros they have in `rises`.
ghost use Rattle.std.specs.Prelude.{◌≡◌, ◌++◌, map, ◌<◌, ◌≤◌, length, drop};
ghost use Rattle.lent.specs.Lent.{filled};
ghost use Rattle.parts.specs.Parts.{part_number};
ghost use Rattle.words.specs.Packed.{packed_chain};
ghost use Rattle.words.specs.Walks.{point_at};

// The part number of the point of the letter at place i.
fn number_at(rises: u64, i: u32) -> u16
    requires { i < 64 }
    ensures { result ≡ part_number (point_at rises i) }
{
    let bit = 1 << i;
    let b = (rises & (bit - 1)).count_ones();
    let a = i - b;
    parts::part_number(a as u64, b as u64)
}

// The numbers of the parts in the first places, the largest part first: a turn takes the highest mark that is left.
fn store_numbers(rises: u64, marks: u64, places: &mut [u16])
    requires { 64 ≤ length places.old }
    ensures { places.new
        ≡ map part_number (packed_chain rises marks) ++ drop (length (packed_chain rises marks)) places.old }
{
    let mut left = marks;
    for k in 0..marks.count_ones() as usize {
        let i = 63 - left.leading_zeros();
        places[k] = number_at(rises, i);
        left -= 1 << i;
    }
}

// The same, and zeros in the other places up to 64.
pub fn fill_places(rises: u64, marks: u64, places: &mut [u16])
    requires { 64 ≤ length places.old }
    ensures { places.new ≡ filled 64 (map part_number (packed_chain rises marks)) places.old }
{
    places[0..64].fill(0);
    store_numbers(rises, marks, places);
}
