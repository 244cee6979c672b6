// The run along a word that two numbers hold, a letter at a time from the last one back. Residues are below m, and m is at most
// 2^63: so the sum of two residues fits in 64 bits, and one subtraction at most brings it below m. Three times a residue might not
// fit: it is computed as twice the residue and once more.
//
// A letter tells by its two bits what it does, so no step branches on a letter.
ghost use Rattle.std.specs.Prelude.{◌≡◌, ◌+◌, ◌*◌, ◌%◌, ◌^◌, ◌<◌, ◌≤◌};
ghost use Rattle.words.specs.Packed.{unpacked};
ghost use Rattle.running.specs.Run.{run};

// A modulus m and a residue x, on which a chain is run.
#[derive(Clone, Copy)]
pub struct Run {
    pub m: u64,
    pub x: u64,
    pub ghost small: { (x < m) × (m ≤ 2 ^ 63) },
}

impl Run {
    // r + s modulo m, for two residues. `less` is m less than their sum, modulo 2^64: its highest bit is 1 exactly if the sum is below
    // m. A test would become a jump that cannot be predicted.
    fn sum(self, r: u64, s: u64) -> u64
        requires { (r < self.m) × (s < self.m) }
        ensures { (result ≡ (r + s) % self.m) × (result < self.m) }
    {
        let less = (r + s).wrapping_sub(self.m);
        less.wrapping_add((less >> 63) * self.m)
    }

    // What a letter makes of the residue r: `up` is 1 for the letters 2 and 3, `part` is 1 for 1 and 3.
    fn with_letter(self, up: u64, part: u64, r: u64) -> u64
        requires { (up ≤ 1) × (part ≤ 1) × (r < self.m) }
        ensures { (result ≡ ((2 + up) * r + part * self.x) % self.m) × (result < self.m) }
    {
        let double = self.sum(r, r);
        let more = self.sum(up * r, part * self.x);
        self.sum(double, more)
    }

    // The run along a word of so many letters.
    pub fn along(self, rises: u64, marks: u64, letters: u64) -> u64
        requires { letters ≤ 64 }
        ensures { result ≡ run self.m self.x (unpacked letters rises marks) }
    {
        let mut r: u64 = 0;
        for i in (0..letters).rev() {
            r = self.with_letter((rises >> i) % 2, (marks >> i) % 2, r);
        }
        r
    }
}
