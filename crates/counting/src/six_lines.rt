// The count by the six lines of document 01, 'Counting by the remainder': with n = 6u + r, the remainder r decides which line
// applies.
ghost use Rattle.std.specs.Prelude.{◌≡◌, ◌≤◌};
ghost use Rattle.chains.specs.Listing.{count};

// The count of n. Each call is of a smaller number. The count of a number of at least 1 is at most that number, so no sum wraps.
pub fn count_of(n: u64) -> u64
    requires { n ≤ 65535 }
    ensures { result ≡ count n }
{
    if n <= 1 {
        return 1;
    }
    let u = n / 6;
    let r = n % 6;
    match r {
        // The chains of 3u doubled and those of 2u tripled, among both of which are those of u times six; for 6u + 1 each has a
        // part 1 more.
        0 | 1 => {
            let w = count_of(u);
            count_of(2 * u) + count_of(3 * u) - w
        }
        2 => count_of(3 * u + 1),
        3 => count_of(3 * u + 1) + count_of(2 * u + 1),
        4 => count_of(3 * u + 2) + count_of(2 * u + 1),
        _ => count_of(3 * u + 2),
    }
}
