// What lent memory holds.
ghost use Rattle.std.specs.Prelude.{ℕ, ◌≡◌, ◌≤◌, ◌+◌, ◌∷◌, [], ◌↔◌, IsTrue, All, cond, length, drop, position, not, IfSome, ◌<◌};
ghost use Rattle.test_kit.specs.Runs.{run_end};

// Where the run of `first` from `from` on ends, and where the run of `second` that follows it ends.
pub fn ends<T: PartialEq>(numbers: &[T], from: usize, first: &T, second: &T) -> (usize, usize)
    ensures within { result.1 ≤ length numbers.now }
    ensures first { result.0 ≡ run_end (λ y. T.eq y first.now) from numbers.now }
    ensures second { result.1 ≡ run_end (λ y. T.eq y second.now) result.0 numbers.now }
{
    let end = end_of_run(numbers, from, first);
    (end, end_of_run(numbers, end, second))
}

// Where the run of x that begins at `from` ends.
fn end_of_run<T: PartialEq>(numbers: &[T], from: usize, x: &T) -> usize
    ensures within { result ≤ length numbers.now }
    ensures value { result ≡ run_end (λ y. T.eq y x.now) from numbers.now }
{
    let from = from.min(numbers.len());
    match first_other(&numbers[from..], x) {
        Some(run) => from + run,
        None => numbers.len(),
    }
}

// The place of the first number that is not x.
fn first_other<T: PartialEq>(numbers: &[T], x: &T) -> Option<usize>
    ensures within { IfSome result (λ i. i < length numbers.now) }
    ensures value { result ≡ position (λ y. not (T.eq y x.now)) numbers.now }
{
    numbers.iter().position(|y| *y != *x)
}

// Whether all numbers from `from` on are x.
pub fn are_all<T: PartialEq>(numbers: &[T], from: usize, x: &T) -> bool
    ensures { IsTrue result ↔ All (λ y. IsTrue (T.eq y x.now)) (drop from numbers.now) }
{
    let from = from.min(numbers.len());
    numbers[from..].iter().all(|y| y == x)
}

// What is printed behind an answer: ! where the memory is not left as it should be.
pub fn mark(right: bool) -> &'static str
    ensures { result.now ≡ cond right [] (33 ∷ []) }
{
    if right { "" } else { "!" }
}
