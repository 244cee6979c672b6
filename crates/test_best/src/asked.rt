// What is asked: numbers, limits and prices.
use best::{Limits, Prices};
use test_choice::{at_most, priced};

// No limit at all.
pub const ANY: (u8, u8, u8) = (255, 255, 255);

// The limits that the small numbers have in turn.
const SMALL_LIMITS: [(u8, u8, u8); 10] = [
    ANY,
    (64, 63, 40),
    (3, 63, 40),
    (2, 5, 2),
    (4, 3, 40),
    (3, 63, 1),
    (1, 255, 255),
    (0, 0, 0),
    (5, 0, 40),
    (6, 63, 0),
];

pub fn small_limits(i: usize) -> Limits {
    at_most(SMALL_LIMITS[i % 10])
}

const PRICES: [(u16, u16, u16, u16); 6] = [
    (4, 7, 9, 9),
    (0, 0, 0, 0),
    (65535, 65535, 65535, 65535),
    (1, 65535, 65535, 0),
    (65535, 1, 0, 65535),
    (4, 7, 9, 6),
];

pub fn prices_of(i: usize) -> Prices {
    priced(PRICES[i % 6])
}

// 3 × 2^62 and its neighbour below, the last numbers, powers with their neighbours, and a number of many chains.
pub const EDGES: [u64; 11] = [
    13835058055282163711,
    13835058055282163712,
    18446744073709551615,
    18446744073709551614,
    9223372036854775808,
    4611686018427387903,
    12157665459056928801,
    12157665459056928800,
    12157665459056928802,
    9223372036854775807,
    15973999968531146337,
];

pub const EDGE_LIMITS: [(u8, u8, u8); 8] = [
    ANY,
    (63, 63, 40),
    (62, 63, 40),
    (64, 63, 0),
    (63, 63, 0),
    (64, 0, 40),
    (255, 62, 40),
    (255, 63, 39),
];

// Document 01's two lines of kind 02, its number 29, and 0, each with its own limits.
pub const EXAMPLES: [(u64, (u8, u8, u8)); 4] = [
    (19, (2, 63, 40)),
    (5, (1, 63, 40)),
    (29, ANY),
    (0, (0, 0, 0)),
];
