// A record as it is read, character by character: part numbers in decimal with a space between them.
ghost use Rattle.std.specs.Prelude.{◌≡◌, ◌≢◌, ◌≤◌, ◌+◌, min, max, take};

// The numbers of a record as far as they are read; the last one may still grow. It holds at most `N`.
// No heap: an array with the count beside it.
#[derive(Clone, Copy)]
pub struct Record<const N: usize> {
    pub numbers: [u16; N],
    pub k: usize,
    ghost fits: { k ≤ N },
}

impl<const N: usize> Record<N> {
    // The empty record.
    pub fn new() -> Record<N>
        ensures { result.k ≡ 0 }
    {
        Record {
            numbers: [0; N],
            k: 0,
        }
    }

    pub fn numbers(&self) -> &[u16]
        ensures { result.now ≡ take self.now.k self.now.numbers }
    {
        &self.numbers[..self.k]
    }

    // One character more of the line.
    pub fn read(&mut self, c: u8)
        ensures space { c ≡ 32 → self.new.k ≡ min N (self.old.k + 1) }
        ensures digit { c ≢ 32 → self.new.k ≡ max self.old.k (min N 1) }
    {
        if c == b' ' {
            self.begin();
        } else {
            self.grow(c);
        }
    }

    // One number more, 0 as yet, where there is room for it.
    fn begin(&mut self)
        ensures { self.new.k ≡ min N (self.old.k + 1) }
    {
        if self.k < N {
            self.numbers[self.k] = 0;
            self.k += 1;
        }
    }

    // One digit more in the last number.
    fn grow(&mut self, digit: u8)
        ensures { self.new.k ≡ max self.old.k (min N 1) }
    {
        if self.k == 0 {
            self.begin();
        }
        if 0 < self.k {
            let last = self.k - 1;
            self.numbers[last] = self.numbers[last] % 1000 * 10 + u16::from(digit % 16);
        }
    }
}
