// The six lines in reading: which letters may come at a number, and what they lead to.
ghost use Rattle.std.specs.Prelude.{◌≡◌, ◌&&◌, ◌||◌, ◌∷◌, ◌<◌, eqb};
ghost use Rattle.chains.specs.Words.{Word};
ghost use Rattle.trees.specs.Trees.{produced, produced_after};
ghost use Rattle.trees.specs.Walk.{goes_on, goes_on_from};

// The lines go on with n, after the letter `next` where there is one.
#[derive(Clone, Copy)]
pub struct Way {
    n: u64,
    next: Option<u8>,
}

// On with n.
#[tactic(auto, unfolding(crate::specs::Walk::goes_on, crate::specs::Walk::goes_on_from))]
fn on(n: u64) -> Way
    ensures { (w : Word) → goes_on_from result.n result.next w ≡ produced w n }
{
    Way { n, next: None }
}

// On with n after the letter x.
#[tactic(auto, unfolding(crate::specs::Walk::goes_on, crate::specs::Walk::goes_on_from))]
fn after(x: u8, n: u64) -> Way
    ensures { (w : Word) → goes_on_from result.n result.next w ≡ produced_after x w n }
{
    Way { n, next: Some(x) }
}

// What a letter leads to on a line with one way on, by the letter x, and on a line with two, by x or y. No other letter is allowed.
#[tactic(auto, unfolding(crate::specs::Walk::goes_on, crate::specs::Walk::goes_on_from))]
fn only(letter: u8, x: u8, way: Way) -> Option<Way>
    ensures { (w : Word) → goes_on result w ≡ (eqb letter x && goes_on_from way.n way.next w) }
{
    if letter == x { Some(way) } else { None }
}

#[tactic(auto, unfolding(crate::specs::Walk::goes_on, crate::specs::Walk::goes_on_from))]
fn either(letter: u8, x: u8, way_x: Way, y: u8, way_y: Way) -> Option<Way>
    requires { y < x }
    ensures { (w : Word)
        → goes_on result w
        ≡ ((eqb letter x && goes_on_from way_x.n way_x.next w) || (eqb letter y && goes_on_from way_y.n way_y.next w)) }
{
    if letter == x {
        return Some(way_x);
    }
    only(letter, y, way_y)
}

// What a letter leads to at a number above 1.
#[tactic(auto, unfolding(crate::specs::Trees::produced, crate::specs::Trees::line))]
fn line_step(letter: u8, n: u64) -> Option<Way>
    requires { 1 < n }
    ensures { (w : Word) → goes_on result w ≡ produced (letter ∷ w) n }
{
    let r = n % 6;
    match r {
        0 => either(letter, 3, on(n / 3), 1, on(n - 1)),
        1 => only(letter, 1, on(n - 1)),
        2 => only(letter, 2, on(n / 2)),
        3 => either(letter, 3, on(n / 3), 1, after(2, (n - 1) / 2)),
        4 => either(letter, 2, on(n / 2), 1, after(3, (n - 1) / 3)),
        _ => only(letter, 1, after(2, (n - 1) / 2)),
    }
}

// What a letter leads to on the way, if the lines allow it.
#[tactic(auto, unfolding(crate::specs::Walk::goes_on, crate::specs::Walk::goes_on_from))]
fn step(letter: u8, way: Way) -> Option<Way>
    ensures { (w : Word) → goes_on result w ≡ goes_on_from way.n way.next (letter ∷ w) }
{
    match way.next {
        Some(next) => only(letter, next, on(way.n)),
        None if 1 < way.n => line_step(letter, way.n),
        None => None,
    }
}

// Whether the lines produce the word from the number.
pub fn is_produced(letters: &[u8], number: u64) -> bool
    ensures { result ≡ produced letters.now number }
{
    let mut way = on(number);
    for letter in letters {
        let Some(further) = step(*letter, way) else {
            return false;
        };
        way = further;
    }
    way.next.is_none() && way.n == 1
}
