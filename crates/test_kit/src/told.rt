// How answers are printed.
ghost use Rattle.std.specs.Prelude.{◌≡◌, take, Some};
ghost use Rattle.test_kit.specs.Printed.{told_text, or_dash, number_told, spaced};

use refusals::Refusal;
use std::fmt;

// What a service answered: the value, or the number of the refusal.
#[derive(Clone, Copy)]
pub struct Told<T>(pub Result<T, Refusal>);

impl<T: fmt::Display> fmt::Display for Told<T> {
    ghost output = { λ t. told_text T.output t.0 };

    fn fmt<W: fmt::Write>(&self, f: &mut fmt::Formatter<W>) -> fmt::Result {
        match &self.0 {
            Ok(value) => value.fmt(f),
            Err(refusal) => u8::from(*refusal).fmt(f),
        }
    }
}

// The value, or the number of the refusal.
pub fn number_of(answer: Result<u64, Refusal>) -> u64
    ensures { result ≡ number_told answer }
{
    match answer {
        Ok(value) => value,
        Err(refusal) => u64::from(u8::from(refusal)),
    }
}

// Each number after a space.
#[derive(Clone, Copy)]
pub struct Spaced<'a, T>(pub &'a [T]);

impl<'a, T: fmt::Display> fmt::Display for Spaced<'a, T> {
    ghost output = { λ s. spaced T.output s.0.now };

    fn fmt<W: fmt::Write>(&self, f: &mut fmt::Formatter<W>) -> fmt::Result {
        for x in self.0 {
            write!(f, " {x}")?;
        }
        Ok(())
    }
}

// The first k of some numbers, or all where there are fewer.
pub fn first<T>(numbers: &[T], k: u64) -> &[T]
    ensures { result.now ≡ take k numbers.now }
{
    match usize::try_from(k) {
        Ok(end) if end < numbers.len() => &numbers[..end],
        _ => numbers,
    }
}

// A value, or - where there is none.
#[derive(Clone, Copy)]
pub struct OrDash<T>(pub Option<T>);

impl<T: fmt::Display> fmt::Display for OrDash<T> {
    ghost output = { λ o. or_dash T.output o.0 };

    fn fmt<W: fmt::Write>(&self, f: &mut fmt::Formatter<W>) -> fmt::Result {
        match &self.0 {
            Some(value) => value.fmt(f),
            None => f.write_str("-"),
        }
    }
}
