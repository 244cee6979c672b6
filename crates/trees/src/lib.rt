// Tree words: document 02, T-05; 003, figure 1. From a tree word to its chain, and from a record to the tree word of its chain.
#![tactic(auto)]

mod judging;
mod numbers;
mod paths;
mod producing;
mod writing;

ghost use Rattle.std.specs.Prelude.{◌≡◌};
ghost use Rattle.lent.specs.Lent.{too_little, scratch_left};
ghost use Rattle.ranking.specs.Services.{lent, answer_of, places_left};
ghost use Rattle.trees.specs.Answers.{of_tree, record_tree, lent_tree, tree_told, tree_left};

use ranking::Found;
use refusals::Refusal;

// Reading a tree word: n, position and number of parts of its chain; the part numbers in the places. Refuses with 1, then with 15
// for a letter outside 1 to 3, 10 where the word's number reaches 2^64, and 15 for a word that the lines cannot produce.
pub fn read_tree(letters: &[u8], scratch: &mut [u64], places: &mut [u16]) -> Result<Found, Refusal>
    ensures answer { result ≡ answer_of (lent scratch.old places.old (of_tree letters.now)) }
    ensures places { places.new
        ≡ places_left (lent scratch.old places.old (of_tree letters.now)) places.old }
    ensures scratch { scratch.new
        ≡ scratch_left (too_little 64 scratch.old places.old) scratch.old }
{
    if scratch.len() < lent::SCRATCH {
        return Err(Refusal::LittleLent);
    }
    if places.len() < 64 {
        return Err(Refusal::LittleLent);
    }
    match judging::judge(letters) {
        Ok(_) => {
            // No heap: the longest path word has 64 letters, and this one has k.
            let mut path = [0u8; 64];
            let k = paths::write_path(letters, &mut path);
            ranking::read_word(&path[0..k], scratch, places)
        }
        Err(refusal) => {
            lent::clear_scratch(scratch);
            Err(refusal)
        }
    }
}

// The tree word of a record's chain: its letters, then zeros up to 160, later places untouched. It tells how many letters there are.
// Refuses with 1 for fewer than 160 places, with what the record gets (8, 9, 10), then with 15 for the empty chain, which has no
// tree word; with a refusal nothing is touched.
pub fn write_tree(numbers: &[u16], places: &mut [u8]) -> Result<u64, Refusal>
    ensures answer { result ≡ tree_told (lent_tree places.old (record_tree numbers.now)) }
    ensures places { places.new
        ≡ tree_left (lent_tree places.old (record_tree numbers.now)) places.old }
{
    if places.len() < 160 {
        return Err(Refusal::LittleLent);
    }
    let word = words::pack_word(numbers)?;
    if word.n == 0 {
        return Err(Refusal::NoTreeWord);
    }
    Ok(writing::write_letters(word.n, word.rises, places))
}
