// The letters of a tree word along the six lines: where a number has two lines, the next rise on the path of the chain decides.
ghost use Rattle.std.specs.Prelude.{◌≡◌, ◌++◌, ◌%◌, ◌≤◌, ◌<◌, length, drop};
ghost use Rattle.lent.specs.Lent.{filled};
ghost use Rattle.trees.specs.TreeOf.{letter_at, number_after};
ghost use Rattle.trees.specs.Walk.{letters_for};

// The letter at a number: its remainder modulo six decides, and where that leaves two lines, whether b rises next. Then `up` is 1,
// else 0.
#[tactic(auto, unfolding(crate::specs::TreeOf::letter_at))]
fn letter_at(n: u64, up: u64) -> u8
    requires { up ≤ 1 }
    ensures { (result ≡ letter_at (n % 6) up) × (1 ≤ result) × (result ≤ 3) }
{
    let r = n % 6;
    match r {
        0 | 3 => (1 + 2 * up) as u8,
        2 => 2,
        4 => (2 - up) as u8,
        _ => 1,
    }
}

// The number after a letter.
#[tactic(auto, unfolding(crate::specs::TreeOf::number_after))]
fn number_after(letter: u8, n: u64) -> u64
    requires { (1 ≤ letter) × (1 < n) }
    ensures { (result ≡ number_after letter n) × (result < n) }
{
    match letter {
        1 => n - 1,
        2 => n / 2,
        _ => n / 3,
    }
}

// The letters of the tree word of a number over the first places, along a path on which b rises where the bits of `rises` say. Tells
// how many letters there are.
fn write_lines(number: u64, rises: u64, places: &mut [u8]) -> usize
    requires { length (letters_for number rises) ≤ length places.old }
    ensures value { result ≡ length (letters_for number rises) }
    ensures places_after { places.new ≡ letters_for number rises ++ drop result places.old }
{
    let mut n = number;
    let mut path = rises;
    let mut j = 0;
    // The number ends the loop, and not the places: a `for` over these would be no plainer, with this test and a return in it.
    while 1 < n {
        let letter = letter_at(n, path % 2);
        places[j] = letter;
        n = number_after(letter, n);
        path = path >> (letter / 2);
        j += 1;
    }
    j
}

// The same, then zeros up to 160.
pub fn write_letters(number: u64, rises: u64, places: &mut [u8]) -> u64
    requires { (length (letters_for number rises) ≤ 160) × (160 ≤ length places.old) }
    ensures value { result ≡ length (letters_for number rises) }
    ensures places_after { places.new ≡ filled 160 (letters_for number rises) places.old }
{
    places[0..160].fill(0);
    write_lines(number, rises, places) as u64
}
