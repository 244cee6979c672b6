// What the test programs share: random numbers and digests, runs of a number in lent memory, words of few letters, records as they are
// read, how answers are printed, and the standard streams.
#![tactic(auto)]

mod memory;
mod random;
mod record;
mod streams;
mod told;
mod word;

pub use memory::{are_all, ends, mark};
pub use random::{Random, digest_of, mixed};
pub use record::Record;
pub use streams::{Regardless, read_block};
pub use told::{OrDash, Spaced, Told, first, number_of};
pub use word::{Word, long_word, spell};
