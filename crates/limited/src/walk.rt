// The walk along the table of least keys that finds the cheapest word, letter by letter from the point (0, 0) up. The letter at the point
// (a, b) has the index a + b.
ghost use Rattle.std.specs.Prelude.{◌≡◌};
ghost use Rattle.limited.specs.Walk.{Keyed, third_of, StepAsked, Stepped, WalkStart, Spelled};

use super::table;
use best::Terms;
use words::Bits;

// A table of least keys: those of n by its terms, for up to `most` parts. It stands at the start of the memory.
#[derive(Clone, Copy)]
pub struct Keys<'a> {
    pub n: u64,
    pub most: usize,
    pub terms: &'a Terms,
    pub memory: &'a [u64],
    pub ghost keyed: { Keyed terms.now.costs terms.now.doublings terms.now.triplings most n memory.now },
}

// A point of the walk: where its block begins, the parts still allowed, which reader goes on there, the rest, and the bits of the letters
// before it. `letter` is the bit of the point's own letter, 2^(a + b).
#[derive(Clone, Copy)]
struct Walk {
    a: usize,
    b: usize,
    at: usize,
    left: usize,
    free: bool,
    rest: u64,
    letter: u64,
    rises: u64,
    marks: u64,
}

impl Keys<'_> {
    // The key by a rise of b. Where b may not rise, the block above may not be filled, so it is not read.
    fn third_key(&self, w: Walk) -> u64
        requires { StepAsked self.now.terms.now.costs self.now.terms.now.doublings self.now.terms.now.triplings self.now.most self.now.n w }
        ensures { result ≡ third_of self.now.terms.now.costs self.now.terms.now.doublings self.now.terms.now.triplings w }
    {
        let at = w.at;
        let left = w.left;
        let up = table::row_size(w.b);
        if w.rest % 3 == 1 {
            return self.memory[at + up + left - 1] + self.terms.costs[3];
        }
        if w.rest % 3 == 0 {
            if w.free {
                return self.memory[at + up + left] + self.terms.costs[2];
            }
        }
        table::NONE
    }

    // One letter more: a rises where its key is no larger than that by a rise of b. So of two words with the same key the earlier one is
    // found.
    fn step(&self, w: Walk) -> Walk
        requires { StepAsked self.now.terms.now.costs self.now.terms.now.doublings self.now.terms.now.triplings self.now.most self.now.n w }
        ensures { Stepped self.now.terms.now.costs self.now.terms.now.doublings self.now.terms.now.triplings self.now.most self.now.n
            w result }
    {
        let odd = (w.rest % 2) as usize;
        let half = self.memory[w.at + 195 + w.left - odd] + self.terms.costs[odd];
        let third = self.third_key(w);
        if half <= third {
            return Walk {
                a: w.a + 1,
                at: w.at + 130,
                left: w.left - odd,
                free: false,
                rest: w.rest / 2,
                letter: 2 * w.letter,
                marks: w.marks + w.letter * (w.rest % 2),
                ..w
            };
        }
        let up = table::row_size(w.b);
        Walk {
            b: w.b + 1,
            at: w.at + up,
            left: w.left - (w.rest % 3) as usize,
            free: true,
            rest: w.rest / 3,
            letter: 2 * w.letter,
            rises: w.rises + w.letter,
            marks: w.marks + w.letter * (w.rest % 3),
            ..w
        }
    }

    // The cheapest word of n with at most `most` parts, in two numbers. The last letter is 3.
    pub fn cheapest_word(&self) -> Bits
        requires { WalkStart self.now.terms.now.costs self.now.terms.now.doublings self.now.terms.now.triplings self.now.most self.now.n }
        ensures { Spelled self.now.terms.now.costs self.now.terms.now.doublings self.now.terms.now.triplings self.now.most self.now.n
            result.rises result.marks }
    {
        let mut w = Walk {
            a: 0,
            b: 0,
            at: 0,
            left: self.most,
            free: true,
            rest: self.n,
            letter: 1,
            rises: 0,
            marks: 0,
        };
        // How many letters there will be is not known before the rest is 1, so no range gives their places.
        while w.rest > 1 {
            w = self.step(w);
        }
        Bits {
            rises: w.rises + w.letter,
            marks: w.marks + w.letter,
        }
    }
}
