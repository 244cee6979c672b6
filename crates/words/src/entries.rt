// The part of a number of the part table, by the table of codes: its exponents, and its value by the powers of 3.
ghost use Rattle.std.specs.Prelude.{◌≡◌, ◌^◌, ◌<◌};
ghost use Rattle.chains.specs.Chains.{value};
ghost use Rattle.parts.specs.Parts.{part_at};
ghost use Rattle.parts.specs.Codes.{codes as all_codes, powers as all_powers};
ghost use Rattle.words.specs.Walks.{point};

use parts::Exponents;

// The table of codes. A call makes one copy of it and lends that.
#[derive(Clone, Copy)]
pub struct Table<'a> {
    pub codes: &'a [u16],
    pub ghost whole: { codes.now ≡ all_codes },
}

// The powers of 3, likewise.
#[derive(Clone, Copy)]
pub struct Threes<'a> {
    pub powers: &'a [u64],
    pub ghost whole: { powers.now ≡ all_powers },
}

impl Table<'_> {
    // The exponents of the part of a number.
    pub fn part_of(self, number: u16) -> Exponents
        requires { number < 1344 }
        ensures { point result ≡ part_at number }
    {
        let code = self.codes[usize::from(number)];
        Exponents {
            a: u64::from(code % 64),
            b: u64::from(code / 64),
        }
    }
}

impl Threes<'_> {
    // The value of a part by its exponents.
    pub fn value_at(self, part: Exponents) -> u64
        requires { value (point part) < 2 ^ 64 }
        ensures { result ≡ value (point part) }
    {
        self.powers[part.b as usize] << part.a
    }
}

// The value of the part of a number.
pub fn value_of(table: Table<'_>, threes: Threes<'_>, number: u16) -> u64
    requires { number < 1344 }
    ensures { result ≡ value (part_at number) }
{
    threes.value_at(table.part_of(number))
}
