// The path word of a tree word's chain, from the first letter on.
ghost use Rattle.std.specs.Prelude.{◌≡◌, length, take};
ghost use Rattle.trees.specs.TreeOf.{path_from};
ghost use Rattle.trees.specs.Walk.{Readable};

// The letters of the path word, and how many they are. A letter 1 is owed until the next 2 or 3, where a point of the path comes.
// After a 2 half of what is owed is owed on. At a 3 at most one letter is owed, and nothing after it. A letter 1 stores a value that
// the next letter overwrites.
pub fn write_path(letters: &[u8], path: &mut [u8]) -> usize
    requires { Readable letters.now (length path.old) }
    ensures value { result ≡ length (path_from 0 letters.now) }
    ensures path_after { take result path.new ≡ path_from 0 letters.now }
{
    let mut owed: usize = 0;
    let mut j = 0;
    for letter in letters {
        path[j] = 2 * (*letter / 3) + (owed % 2) as u8;
        let point = usize::from(*letter / 2);
        owed = owed / (1 + point) + (1 - point);
        j += point;
    }
    path[j] = 3;
    j + 1
}
