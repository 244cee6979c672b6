// What is asked: numbers, limits, and fourteen ways, each with limits on doublings and triplings, and prices.
use best::{Limits, Prices};
use test_choice::{Question, at_most, priced};

// The limits of a way, with a limit on parts.
fn limits_of(way: usize, parts: u8) -> Limits {
    match way {
        2 => at_most((parts, 63, 0)),
        4 => at_most((parts, 3, 40)),
        5 => at_most((parts, 63, 1)),
        6 => at_most((parts, 5, 2)),
        7 => at_most((parts, 0, 40)),
        9 => at_most((parts, 0, 0)),
        10 => at_most((parts, 63, 40)),
        _ => at_most((parts, 255, 255)),
    }
}

// Way 2 has the highest price of all: that of 2^64 - 1 as powers of two. With no price at all, and where only additions have one and both
// the same, parts decide. Where only doublings have one, or only triplings, many chains have the same price.
const PRICES: [(u16, u16, u16, u16); 14] = [
    (4, 7, 9, 9),
    (0, 0, 0, 0),
    (65535, 65535, 65535, 65535),
    (1, 0, 5, 2),
    (9, 1, 1, 4),
    (1, 65535, 65535, 0),
    (65535, 1, 0, 65535),
    (0, 0, 9, 9),
    (4, 7, 9, 6),
    (0, 0, 0, 0),
    (1, 0, 0, 0),
    (0, 1, 0, 0),
    (0, 0, 65535, 0),
    (0, 0, 0, 65535),
];

pub fn prices_of(way: usize) -> Prices {
    priced(PRICES[way % 14])
}

// n in a way, with a limit on parts.
pub fn in_way(n: u64, way: usize, parts: u8) -> Question {
    Question {
        n,
        limits: limits_of(way, parts),
        prices: prices_of(way),
    }
}

// All that a limit on parts may be, but for those from 67 to 253 that are not 127 or 128.
pub const PARTS: [u8; 71] = [
    0, 1, 2, 3, 4, 5, 6, 7, 8, 9, 10, 11, 12, 13, 14, 15, 16, 17, 18, 19, 20, 21, 22, 23, 24, 25,
    26, 27, 28, 29, 30, 31, 32, 33, 34, 35, 36, 37, 38, 39, 40, 41, 42, 43, 44, 45, 46, 47, 48, 49,
    50, 51, 52, 53, 54, 55, 56, 57, 58, 59, 60, 61, 62, 63, 64, 65, 66, 127, 128, 254, 255,
];

// A limit on parts that excludes nothing: another one for each of 192 numbers.
pub fn no_limit(i: u64) -> u8 {
    (64 + i % 192) as u8
}

// 0 and 1, the last numbers, 3 × 2^62 and its neighbour below, powers with their neighbours, a number of many chains, the sum of all
// powers of three, and some others.
pub const NUMBERS: [u64; 16] = [
    0,
    1,
    18446744073709551615,
    18446744073709551614,
    13835058055282163711,
    13835058055282163712,
    9223372036854775808,
    9223372036854775807,
    12157665459056928801,
    12157665459056928800,
    12157665459056928802,
    15973999968531146337,
    18236498188585393201,
    1000000000000000000,
    6148914691236517205,
    19,
];

// The limits where the lent memory is looked at.
pub const SOME_LIMITS: [(u8, u8, u8); 4] = [(255, 255, 255), (0, 0, 0), (62, 63, 40), (64, 0, 40)];
