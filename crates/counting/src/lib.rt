// How many chains a number has; how many words of its list stand before one of them, and which stands at a position.
//
// The plain count works by the recursion of document 01, 'Counting by the remainder', without scratch. The others fill the counts at
// the points of the walk, row by row, in the scratch that they are lent.
#![tactic(auto)]

mod back;
mod forward;
mod rows;
mod six_lines;

ghost use Rattle.std.specs.Prelude.{replicate, ◌≡◌, []};
ghost use Rattle.lent.specs.Lent.{scratch_size, little_scratch, scratch_left, filled};
ghost use Rattle.counting.specs.Table.{CountRows};
ghost use Rattle.counting.specs.Ranked.{PositionTold, listed_at, lent_list, NextTold};
ghost use Rattle.counting.specs.PlainCount.{plain_of};
ghost use Rattle.counting.specs.TableCount.{counted_of};

use refusals::Refusal;

// A word of the list of n in two numbers, with its position. Each letter has a bit in either number, the first letter the lowest. A bit
// of `rises` is 1 where the letter is 2 or 3, a bit of `marks` where it is 1 or 3.
#[derive(Clone, Copy)]
pub struct Listed {
    pub position: u64,
    pub rises: u64,
    pub marks: u64,
}

// The count of n for n up to 65,535, and refusal 12 above. Nothing is lent.
pub fn plain_count(n: u64) -> Result<u64, Refusal>
    ensures { result ≡ plain_of n }
{
    if n > 65535 {
        return Err(Refusal::TooLargeToCount);
    }
    Ok(six_lines::count_of(n))
}

// The count of any n, with a scratch of at least `lent::SCRATCH` numbers of any contents; refusal 1 with a smaller one, and nothing
// is touched. Otherwise the first `lent::SCRATCH` numbers are left zero.
pub fn table_count(n: u64, scratch: &mut [u64]) -> Result<u64, Refusal>
    ensures value { result ≡ counted_of n scratch.old }
    ensures scratch_after { scratch.new ≡ scratch_left (little_scratch scratch.old) scratch.old }
{
    let Some(first) = scratch.first_chunk_mut() else {
        return Err(Refusal::LittleLent);
    };
    rows::fill_down(n, 0, first);
    let count = rows::count_in(n, first);
    lent::clear_scratch(first);
    Ok(count)
}

// The position of a word in the list of n: how many words stand before it. `rises` says where b rises in the word, a bit a letter,
// the lowest for the first. Where b rises so in no word of the list, some number is told. A scratch that is too small is refused
// with 1. The scratch is left as the table count leaves it.
pub fn position_of(n: u64, rises: u64, scratch: &mut [u64]) -> Result<u64, Refusal>
    ensures position_told { PositionTold n rises scratch.old result }
    ensures scratch_after { scratch.new ≡ scratch_left (little_scratch scratch.old) scratch.old }
{
    let Some(first) = scratch.first_chunk_mut() else {
        return Err(Refusal::LittleLent);
    };
    let position = back::position_in(n, rises, first);
    lent::clear_scratch(first);
    Ok(position)
}

// The word at the position i of the list of n, or none where the list has ended. The rows of n stand in the scratch; in the end it is zeroed.
fn listed_at(n: u64, i: u64, scratch: &mut [u64; lent::SCRATCH]) -> Option<Listed>
    requires { CountRows n 0 scratch.old }
    ensures value { result ≡ listed_at n i }
    ensures scratch_after { scratch.new ≡ replicate scratch_size 0 }
{
    let count = rows::count_in(n, scratch);
    if count <= i {
        lent::clear_scratch(scratch);
        return None;
    }
    let word = forward::word_in(n, count, i, scratch);
    lent::clear_scratch(scratch);
    Some(Listed {
        position: i,
        rises: word.rises,
        marks: word.marks,
    })
}

// The word at the position i of the list of n, or none where the list has ended. A scratch that is too small is refused with 1. The scratch is left as the table count
// leaves it.
pub fn word_at(n: u64, i: u64, scratch: &mut [u64]) -> Result<Option<Listed>, Refusal>
    ensures value { result ≡ lent_list scratch.old (listed_at n i) }
    ensures scratch_after { scratch.new ≡ scratch_left (little_scratch scratch.old) scratch.old }
{
    let Some(first) = scratch.first_chunk_mut() else {
        return Err(Refusal::LittleLent);
    };
    rows::fill_down(n, 0, first);
    Ok(listed_at(n, i, first))
}

// The word after a word of the list of n, told by where b rises in it (`position_of`). The rows are filled once for both.
pub fn word_after(n: u64, rises: u64, scratch: &mut [u64]) -> Result<Option<Listed>, Refusal>
    ensures next_told { NextTold n rises scratch.old result }
    ensures scratch_after { scratch.new ≡ scratch_left (little_scratch scratch.old) scratch.old }
{
    let Some(first) = scratch.first_chunk_mut() else {
        return Err(Refusal::LittleLent);
    };
    let position = back::position_in(n, rises, first);
    Ok(listed_at(n, position.wrapping_add(1), first))
}
