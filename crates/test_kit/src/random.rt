// Random numbers, and digests that are made with them.

ghost use Rattle.std.specs.Prelude.{◌≡◌, Some, fold, take};
ghost use Rattle.test_kit.specs.Random.{after, digest_with};

// Numbers from a generator by shifts (xorshift), from a fixed one on. There is no last.
#[derive(Clone, Copy)]
pub struct Random {
    pub last: u64,
}

impl Random {
    pub fn new() -> Random
        ensures { result.last ≡ 88172645463325252 }
    {
        Random {
            last: 88172645463325252,
        }
    }

    // The next number.
    pub fn draw(&mut self) -> u64
        ensures state { self.new.last ≡ after self.old.last }
        ensures value { result ≡ self.new.last }
    {
        self.last = shifted(self.last);
        self.last
    }
}

impl Iterator for Random {
    type Item = u64;

    ghost next_gives = { λ old r new. (r ≡ Some new.last) × (new.last ≡ after old.last) };

    fn next(&mut self) -> Option<u64> {
        Some(self.draw())
    }
}

// The generator's number after x.
fn shifted(x: u64) -> u64
    ensures { result ≡ after x }
{
    let y = x ^ (x << 13);
    let z = y ^ (y >> 7);
    z ^ (z << 17)
}

// A digest with one number more.
pub fn mixed(digest: u64, x: u64) -> u64
    ensures { result ≡ digest_with digest x }
{
    shifted(digest.wrapping_add(x.wrapping_add(1)))
}

// A digest of the first 64 numbers.
pub fn digest_of(numbers: &[u16]) -> u64
    ensures { result ≡ fold digest_with 0 (take 64 numbers.now) }
{
    numbers
        .iter()
        .take(64)
        .fold(0, |digest, x| mixed(digest, u64::from(*x)))
}
