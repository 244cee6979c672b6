// Words of few letters.
ghost use Rattle.std.specs.Prelude.{◌≡◌, ◌≤◌, length, set, replicate, drop};

// A word of up to five letters: those from `start` on. No heap: an array with the start beside it.
#[derive(Clone, Copy)]
pub struct Word {
    pub letters: [u8; 5],
    pub start: usize,
    ghost within: { start ≤ 5 },
}

impl Word {
    pub fn letters(&self) -> &[u8]
        ensures { result.now ≡ drop self.now.start self.now.letters }
    {
        &self.letters[self.start..]
    }
}

// The words of some letters in the order of their lengths, the empty one first. Of no letters there is the empty word alone.
pub fn spell(alphabet: &[u8], index: usize) -> Word
    ensures empty { index ≡ 0 → result.start ≡ 5 }
    ensures no_letters { length alphabet.now ≡ 0 → result.start ≡ 5 }
{
    let mut letters = [0; 5];
    let mut rest = index;
    for start in (0..5).rev() {
        if rest == 0 || alphabet.is_empty() {
            return Word {
                letters,
                start: start + 1,
            };
        }
        rest -= 1;
        letters[start] = alphabet[rest % alphabet.len()];
        rest /= alphabet.len();
    }
    Word { letters, start: 0 }
}

// A letter, `count` times, then a 3, and the letter again. From 255 times on there is no place for the 3.
pub fn long_word(letter: u8, count: usize) -> [u8; 255]
    ensures length { length result ≡ 255 }
    ensures value { result ≡ set (replicate 255 letter) count 3 }
{
    let mut word = [letter; 255];
    if count < word.len() {
        word[count] = 3;
    }
    word
}
