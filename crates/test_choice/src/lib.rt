// What is asked of the services that choose a chain, and what they are lent.
#![tactic(auto)]

ghost use Rattle.std.specs.Prelude.{◌≡◌, ◌+◌, ◌-◌, min, replicate, length};

use best::{Limits, Prices};

// The limits and prices of a number's chain.
#[derive(Clone, Copy)]
pub struct Question {
    pub n: u64,
    pub limits: Limits,
    pub prices: Prices,
}

// Limits on parts, doublings and triplings.
pub fn at_most(limits: (u8, u8, u8)) -> Limits
    ensures parts { result.parts ≡ limits.0 }
    ensures doublings { result.doublings ≡ limits.1 }
    ensures triplings { result.triplings ≡ limits.2 }
{
    Limits {
        parts: limits.0,
        doublings: limits.1,
        triplings: limits.2,
    }
}

// Prices of a doubling, a tripling, an addition after a doubling and one after a tripling.
pub fn priced(prices: (u16, u16, u16, u16)) -> Prices
    ensures doubling { result.doubling ≡ prices.0 }
    ensures tripling { result.tripling ≡ prices.1 }
    ensures addition_2 { result.addition_2 ≡ prices.2 }
    ensures addition_3 { result.addition_3 ≡ prices.3 }
{
    Prices {
        doubling: prices.0,
        tripling: prices.1,
        addition_2: prices.2,
        addition_3: prices.3,
    }
}

// A limit near what a chain needs: `above` is 0 for one below it, 1 for the need itself, 2 for one above it.
pub fn around(need: u64, above: u64) -> u8
    ensures { result ≡ min 255 (need + above - 1) }
{
    let limit = need.saturating_add(above).saturating_sub(1);
    u8::try_from(limit).unwrap_or(u8::MAX)
}

// The memory that a service is lent.
#[derive(Drop)]
pub struct Lent<'a> {
    pub scratch: &'a mut [u64],
    pub places: &'a mut [u16],
}

impl<'a> Lent<'a> {
    // The scratch holds x, and the places hold ones.
    pub fn hold(&mut self, x: u64)
        ensures scratch { self.new.scratch.now ≡ replicate (length self.old.scratch.now) x }
        ensures places { self.new.places.now ≡ replicate (length self.old.places.now) 65535 }
    {
        self.scratch.fill(x);
        self.places.fill(u16::MAX);
    }
}
