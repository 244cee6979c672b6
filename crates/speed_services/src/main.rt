// The services on a long sequence of 64-bit numbers, to be timed by speed/run: `speed_services SERVICE TIMES`, both in decimal.
// SERVICE: 1 count, 2 best chain, 3 chain at a position, 4 choosing. Prints a sum over all answers, which speed/plain_services.rs
// prints too. With no words it does nothing.
#![tactic(auto)]

use best::{Best, Chosen, Limits, Prices};
use ranking::Found;
use std::rt::Env;
use test_kit::{Random, Regardless, first};

// The decimal number that the word at the index `at` is; 0 where there is none.
fn word_at(rt: &impl Env, at: usize) -> u64 {
    let mut text = [0; 4096];
    let length = rt.arg(at, &mut text).unwrap_or(0);
    text.iter().take(length).fold(0, |n, c| {
        n % 100000000000 * 10 + u64::from(*c % 16 % 10)
    })
}

// What a chain adds to the sum: every part number counts by its index. There are at most k of them among the places.
fn digest(position: u64, price: u64, k: u64, places: &[u16]) -> u64 {
    first(places, k)
        .iter()
        .enumerate()
        .fold(position ^ (price << 32) ^ k, |sum, (i, x)| {
            sum.wrapping_add(u64::from(*x) << (i % 32))
        })
}

// ---- one call of each service

fn counted(n: u64, scratch: &mut [u64]) -> u64 {
    counting::table_count(n, scratch).unwrap_or(0)
}

const NO_LIMITS: Limits = Limits {
    parts: 64,
    doublings: 63,
    triplings: 40,
};

// Four prices from one number.
fn prices_in(x: u64) -> Prices {
    Prices {
        doubling: (x % 65536) as u16,
        tripling: (x / 65536 % 65536) as u16,
        addition_2: (x / 4294967296 % 65536) as u16,
        addition_3: (x / 281474976710656) as u16,
    }
}

fn best_of(n: u64, prices: Prices, scratch: &mut [u64]) -> u64 {
    let mut places = [0; 64];
    match best::best_chain(n, NO_LIMITS, prices, scratch, &mut places) {
        Ok(Best { position, k, price }) => digest(position, price, k, &places),
        Err(_) => 0,
    }
}

fn chosen(n: u64, prices: Prices, scratch: &mut [u64]) -> u64 {
    let mut places = [0; 64];
    match best::choose_chain(n, NO_LIMITS, prices, scratch, &mut places) {
        Ok(Chosen { k, price }) => digest(0, price, k, &places),
        Err(_) => 0,
    }
}

fn placed(n: u64, position: u64, scratch: &mut [u64]) -> u64 {
    let mut places = [0; 64];
    match ranking::chain_at(n, position, scratch, &mut places) {
        Ok(Found { n: _, position, k }) => digest(position, 0, k, &places),
        Err(_) => 0,
    }
}

// ---- many calls

fn sum_of_counts(times: u64, scratch: &mut [u64]) -> u64 {
    let mut sum: u64 = 0;
    for n in Random::new().take(times as usize) {
        sum = sum.wrapping_add(counted(n, scratch));
    }
    sum
}

// The answers to `times` numbers, each with prices of its own, by a service that chooses.
fn sum_of_choices<F: Fn(u64, Prices, &mut [u64]) -> u64>(
    times: u64,
    scratch: &mut [u64],
    service: F,
) -> u64
    requires { F.IsAlwaysCallable service }
{
    let mut random = Random::new();
    let mut sum: u64 = 0;
    for _ in 0..times {
        let n = random.draw();
        let prices = prices_in(random.draw());
        sum = sum.wrapping_add(service(n, prices, scratch));
    }
    sum
}

// Numbers, each with a position below its count.
fn some_block(random: &mut Random, scratch: &mut [u64]) -> [(u64, u64); 500] {
    let mut block = [(0, 0); 500];
    for pair in &mut block {
        let n = random.draw();
        let count = counted(n, scratch);
        *pair = (n, random.draw().checked_rem(count).unwrap_or(0));
    }
    block
}

fn sum_of_block(block: [(u64, u64); 500], scratch: &mut [u64]) -> u64 {
    let mut sum: u64 = 0;
    for (n, position) in block {
        sum = sum.wrapping_add(placed(n, position, scratch));
    }
    sum
}

// Whole blocks: first the positions of a block, then its chains, so that no number is asked twice in a row.
fn sum_of_placed(times: u64, scratch: &mut [u64]) -> u64 {
    let mut random = Random::new();
    let mut sum: u64 = 0;
    for _ in 0..times / 500 {
        let block = some_block(&mut random, scratch);
        sum = sum.wrapping_add(sum_of_block(block, scratch));
    }
    sum
}

fn main(rt: HostRuntime) {
    let service = word_at(&rt, 1);
    let times = word_at(&rt, 2);
    let mut scratch = [0; lent::SCRATCH];
    let sum = match service {
        1 => sum_of_counts(times, &mut scratch),
        2 => sum_of_choices(times, &mut scratch, best_of),
        3 => sum_of_placed(times, &mut scratch),
        4 => sum_of_choices(times, &mut scratch, chosen),
        _ => return,
    };
    let _ = println!(Regardless(&rt); "{sum}");
}
