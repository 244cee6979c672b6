// The number of a tree word, a letter at a time from the last one back.
ghost use Rattle.std.specs.Prelude.{◌≡◌, ◌∷◌};
ghost use Rattle.chains.specs.Words.{Word};
ghost use Rattle.words.specs.Answers.{sized};
ghost use Rattle.trees.specs.Trees.{number};

// What a letter before a word of the number n makes of the number: one more, twice or three times as much; none where that is 2^64 or
// more. Another byte leaves it.
fn with_letter(letter: u8, n: u64) -> Option<u64>
    ensures { (w : Word) → number w ≡ n → result ≡ sized (number (letter ∷ w)) }
{
    match letter {
        1 => n.checked_add(1),
        2 => n.checked_mul(2),
        3 => n.checked_mul(3),
        _ => Some(n),
    }
}

// The number of a word; none where it is 2^64 or more. `words::weigh` has the same loop over another step. A function over any step
// would be handed the step with its law, and be longer than the loop.
pub fn weigh(letters: &[u8]) -> Option<u64>
    ensures { result ≡ sized (number letters.now) }
{
    let mut n: u64 = 1;
    for i in (0..letters.len()).rev() {
        n = with_letter(letters[i], n)?;
    }
    Some(n)
}
