// The two readers of a word, which call on each other (document 01, 'Path words'): one at the start and after b has risen, one
// after a has risen. `left` letters are left to read, so the next one stands at the length less `left`. The answer is 1 for yes and
// 0 for no.
//
// A number as the answer, and the lent slice handed on by reference, have each call compiled to a jump: the longest word takes no
// more memory than the empty one.
ghost use Rattle.std.specs.Prelude.{◌≡◌, true, false, ◌-◌, ◌≤◌, length, drop};
ghost use Rattle.chains.specs.Words.{reads};
ghost use Rattle.chains.specs.Listing.{one_if};

// Whether what is left of a word may follow at the start or after b has risen: nothing, or any letter. A letter 2 is no part, so a
// point must come after it.
#[cycle(after_a_after_b)]
pub fn after_b(letters: &&[u8], left: usize) -> u8
    requires { left ≤ length letters.now.now }
    ensures { result ≡ one_if (reads true (drop (length letters.now.now - left) letters.now.now)) }
{
    if left == 0 {
        return 1;
    }
    let letter = letters[letters.len() - left];
    match letter {
        0 | 1 => after_a(letters, left - 1),
        2 => {
            if left == 1 {
                return 0;
            }
            after_b(letters, left - 1)
        }
        3 => after_b(letters, left - 1),
        _ => 0,
    }
}

// Whether it may follow after a has risen: something, and no letter 2 first.
#[cycle(after_a_after_b)]
pub fn after_a(letters: &&[u8], left: usize) -> u8
    requires { left ≤ length letters.now.now }
    ensures { result ≡ one_if (reads false (drop (length letters.now.now - left) letters.now.now)) }
{
    if left == 0 {
        return 0;
    }
    let letter = letters[letters.len() - left];
    match letter {
        0..=1 => after_a(letters, left - 1),
        3 => after_b(letters, left - 1),
        _ => 0,
    }
}
