// The octave of a part number, and a part's place in its octave, by arithmetic. The octave l has the parts from 2^l up to below
// 2^(l+1). The loops do not end early: a jump that depends on the number is often mispredicted, and that costs more time.
ghost use Rattle.std.specs.Prelude.{◌≡◌, ◌≤◌, ◌<◌};
ghost use Rattle.parts.specs.Octaves.{parts_below, later_of, last_from, InOctave, next_group, in_group, triplings_at};

// How many parts are below 2^l, which is the number of the part 2^l.
pub fn parts_below(l: u64) -> u64
    requires { l ≤ 128 }
    ensures { result ≡ parts_below l }
{
    (l * (323 * l + 832) + 400) / 1024
}

// The later octave where it starts at the number or before it, else l.
fn later_of(number: u64, later: u64, l: u64) -> u64
    requires { later ≤ 128 }
    ensures { result ≡ later_of number later l }
{
    if parts_below(later) <= number {
        return later;
    }
    l
}

// Of the eight octaves first, first + step and so on, the last that starts at the number or before it.
fn last_from(first: u64, step: u64, number: u64) -> u64
    requires { (first ≤ 56) × (step ≤ 8) }
    ensures { result ≡ last_from first step number }
{
    let mut l = first;
    let mut next = first + step;
    for _ in 0..7u8 {
        l = later_of(number, next, l);
        next += step;
    }
    l
}

// The octave of a part number: every eighth is tried, then the seven after the one found.
pub fn octave_at(number: u64) -> u64
    requires { number < 1344 }
    ensures { InOctave number result }
{
    last_from(last_from(0, 8, number), 1, number)
}

// The group after that of r: 7 on, modulo 12.
fn next_group(r: u64) -> u64
    requires { r < 12 }
    ensures { result ≡ next_group r }
{
    if r < 5 {
        return r + 7;
    }
    r - 5
}

// The exponent of 3 at place j, counted on from the start of the group of r; b where the group starts after j.
fn in_group(j: u64, r: u64, start: u64, b: u64) -> u64
    requires { (j ≤ 40) × (r < 12) }
    ensures { result ≡ in_group j r start b }
{
    if start <= j {
        return r + 12 * (j - start);
    }
    b
}

// The exponent of 3 of the part at place j of an octave, whose exponents of 3 are 0 to `most`. As 3^12 is a little more than 2^19,
// the parts with r, r + 12, r + 24 and r + 36 are neighbours; and the twelve groups come in the order of their first ones: 0, 7, 2,
// 9, 4, 11, 6, 1, 8, 3, 10, 5. The last group that starts at j or before it has the place.
pub fn triplings_at(most: u64, j: u64) -> u64
    requires { (most ≤ 40) × (j ≤ 40) }
    ensures { result ≡ triplings_at most j }
{
    let mut b = 0;
    let mut r = 0;
    let mut start = 0;
    for _ in 0..12u8 {
        b = in_group(j, r, start, b);
        start += (most + 12 - r) / 12;
        r = next_group(r);
    }
    b
}
