// Fit lines, kind by kind: what the line asks for is read, the service called, and its answer told. Items and part numbers stand in
// arrays, used up to a length, since the project has no heap: a line has at most 255 items, and a chain at most 64 parts.
ghost use Rattle.std.specs.Prelude.{◌≡◌, ◌≤◌, length};
ghost use Rattle.chains.specs.Best.{price};
ghost use Rattle.parts.specs.Parts.{largest_of, same_part};
ghost use Rattle.words.specs.Walks.{point};
ghost use Rattle.lent.specs.Lent.{too_little, scratch_left};
ghost use Rattle.ranking.specs.Services.{lent, places_left};
ghost use Rattle.best.specs.Chosen.{limits_of, prices_of, best_outcome, best_of};
ghost use Rattle.trees.specs.Answers.{record_tree};
ghost use Rattle.running.specs.Ran.{ran_of};
ghost use Rattle.frames.specs.Calls.{Told, Handled, FitAs, read_only};
ghost use Rattle.frames.specs.Replies.{refused_as, ran_reply, letters_reply, limits_in, prices_in, modulus_in, residue_in};
ghost use Rattle.frames.specs.Replies.{exponents_from, exponents_in, or_sixteen, served, reply_to};
ghost use Rattle.lines.specs.declared.Kind.TheVariants.{Count as count_line, Best as best_line, At as at_line, Record as record_line, Word as word_line, Next as next_line, Run as run_line};
ghost use Rattle.lines.specs.declared.Kind.TheVariants.{Tree as tree_line, ToTree as to_tree_line};
ghost use Rattle.lines.specs.Lines.{Fit, read_items, items_left};

use super::tell;
use best::{Best, Limits, Prices};
use lines::Kind;
use parts::Exponents;
use refusals::Refusal;

// A line that is refused: the scratch is zeroed as on success.
pub fn serve_refusal(
    refusal: Refusal,
    scratch: &mut [u64; lent::SCRATCH],
    out: &mut [u8; 514],
) -> Result<u64, Refusal>
    ensures { Handled (refused_as refusal) result
        scratch.old scratch.new out.old out.new }
{
    lent::clear_scratch(scratch);
    tell::tell_refusal(out, refusal)
}

// 01: the count.
pub fn serve_count(
    line: &[u8],
    scratch: &mut [u64; lent::SCRATCH],
    out: &mut [u8; 514],
) -> Result<u64, Refusal>
    ensures { Handled (served count_line line.now) result
        scratch.old scratch.new out.old out.new }
{
    match counting::table_count(lines::field_of(line, 1, 8), scratch) {
        Ok(count) => tell::tell_single(out, count),
        Err(refusal) => tell::tell_refusal(out, refusal),
    }
}

// The limits and the prices of a line of kind 02. The limits stand side by side and are read in one call: with three calls
// the compiler makes a slower loop over the rows of keys.
fn limits_in(line: &[u8]) -> Limits
    requires { Fit line.now best_line }
    ensures { limits_of result ≡ limits_in line.now }
{
    let three = lines::field_of(line, 9, 3);
    Limits {
        parts: (three / 65536 % 256) as u8,
        doublings: (three / 256 % 256) as u8,
        triplings: (three % 256) as u8,
    }
}

fn prices_in(line: &[u8]) -> Prices
    ensures { prices_of result ≡ prices_in line.now }
{
    Prices {
        doubling: lines::pair_of(line, 12),
        tripling: lines::pair_of(line, 14),
        addition_2: lines::pair_of(line, 16),
        addition_3: lines::pair_of(line, 18),
    }
}

// The best chain of n, by the limits and prices of a line of kind 02.
fn best_in(n: u64, line: &[u8], scratch: &mut [u64], places: &mut [u16]) -> Result<Best, Refusal>
    requires { Fit line.now best_line }
    ensures value { result
        ≡ best_of (price (prices_in line.now))
        (lent scratch.old places.old
        (best_outcome n (limits_in line.now) (price (prices_in line.now)))) }
    ensures places_after { places.new
        ≡ places_left
        (lent scratch.old places.old
        (best_outcome n (limits_in line.now) (price (prices_in line.now))))
        places.old }
    ensures scratch_after { scratch.new
        ≡ scratch_left (too_little 64 scratch.old places.old) scratch.old }
{
    best::best_chain(n, limits_in(line), prices_in(line), scratch, places)
}

// 02: the best chain.
pub fn serve_best(
    line: &[u8],
    scratch: &mut [u64; lent::SCRATCH],
    out: &mut [u8; 514],
) -> Result<u64, Refusal>
    requires { Fit line.now best_line }
    ensures { Handled (served best_line line.now) result
        scratch.old scratch.new out.old out.new }
{
    let n = lines::field_of(line, 1, 8);
    let mut places = [0u16; 64];
    match best_in(n, line, scratch, &mut places) {
        Ok(best) => {
            let numbers = &places[0..best.k as usize];
            tell::tell_priced(out, n, best.position, numbers, best.price)
        }
        Err(refusal) => tell::tell_refusal(out, refusal),
    }
}

// 03: the chain at a position.
pub fn serve_at(
    line: &[u8],
    scratch: &mut [u64; lent::SCRATCH],
    out: &mut [u8; 514],
) -> Result<u64, Refusal>
    ensures { Handled (served at_line line.now) result
        scratch.old scratch.new out.old out.new }
{
    let mut places = [0u16; 64];
    let found = ranking::chain_at(
        lines::field_of(line, 1, 8),
        lines::field_of(line, 9, 8),
        scratch,
        &mut places,
    );
    tell::tell_found(out, found, &places)
}

// The letters and the part numbers of a line, and how many there are: all, where the line is fit and 255 places are lent.
fn letters_in(line: &[u8], letters: &mut [u8]) -> usize
    ensures value { result ≡ length (read_only (read_items 1 line.now (length letters.old))) }
    ensures letters_after { letters.new
        ≡ items_left (read_items 1 line.now (length letters.old)) letters.old }
{
    lines::letters_of(line, letters).unwrap_or(0)
}

fn numbers_in(line: &[u8], numbers: &mut [u16]) -> usize
    ensures value { result ≡ length (read_only (read_items 2 line.now (length numbers.old))) }
    ensures numbers_after { numbers.new
        ≡ items_left (read_items 2 line.now (length numbers.old)) numbers.old }
{
    lines::numbers_of(line, numbers).unwrap_or(0)
}

// What a line with a record tells of its largest part, from byte `at` on.
fn exponents_in(line: &[u8], at: usize) -> Exponents
    requires { at ≤ 18 }
    ensures { point result ≡ exponents_from line.now at }
{
    Exponents {
        a: lines::field_of(line, at, 1),
        b: lines::field_of(line, at + 1, 1),
    }
}

// 04: a burned record. The reply repeats its exponents and part numbers.
pub fn serve_record(
    line: &[u8],
    scratch: &mut [u64; lent::SCRATCH],
    out: &mut [u8; 514],
) -> Result<u64, Refusal>
    requires { Fit line.now record_line }
    ensures { Handled (served record_line line.now) result
        scratch.old scratch.new out.old out.new }
{
    let mut numbers = [0u16; 255];
    let k = numbers_in(line, &mut numbers);
    match ranking::read_record(&numbers[0..k], scratch) {
        Ok(placed) => {
            let told = exponents_in(line, 2);
            tell::tell_record(out, placed.n, placed.position, told, &numbers[0..k])
        }
        Err(why) => tell::tell_refusal(out, why),
    }
}

// 05: a word.
pub fn serve_word(
    line: &[u8],
    scratch: &mut [u64; lent::SCRATCH],
    out: &mut [u8; 514],
) -> Result<u64, Refusal>
    requires { Fit line.now word_line }
    ensures { Handled (served word_line line.now) result
        scratch.old scratch.new out.old out.new }
{
    let mut letters = [0u8; 255];
    let k = letters_in(line, &mut letters);
    let mut places = [0u16; 64];
    let found = ranking::read_word(&letters[0..k], scratch, &mut places);
    tell::tell_found(out, found, &places)
}

// 06: the chain after a word's.
pub fn serve_next(
    line: &[u8],
    scratch: &mut [u64; lent::SCRATCH],
    out: &mut [u8; 514],
) -> Result<u64, Refusal>
    requires { Fit line.now next_line }
    ensures { Handled (served next_line line.now) result
        scratch.old scratch.new out.old out.new }
{
    let mut letters = [0u8; 255];
    let k = letters_in(line, &mut letters);
    let mut places = [0u16; 64];
    let found = ranking::next_chain(&letters[0..k], scratch, &mut places);
    tell::tell_found(out, found, &places)
}

// The run of the chain that a line of kind 07 names, by its part numbers. It is refused with 16 after all else.
fn run_numbers(line: &[u8], numbers: &[u16]) -> Result<u64, Refusal>
    ensures { ran_reply result
        ≡ or_sixteen (same_part (exponents_in run_line line.now) (largest_of numbers.now))
        (ran_reply (ran_of numbers.now (modulus_in line.now) (residue_in line.now))) }
{
    let m = lines::field_of(line, 1, 8);
    let x = lines::field_of(line, 9, 8);
    let residue = running::run_chain(numbers, m, x)?;
    if !parts::is_largest(exponents_in(line, 18), numbers) {
        return Err(Refusal::WrongExponents);
    }
    Ok(residue)
}

// The run that a line of kind 07 asks for.
fn run_in(line: &[u8]) -> Result<u64, Refusal>
    requires { Fit line.now run_line }
    ensures { ran_reply result ≡ served run_line line.now }
{
    let mut numbers = [0u16; 255];
    let k = numbers_in(line, &mut numbers);
    run_numbers(line, &numbers[0..k])
}

// Its residue or refusal.
fn tell_run(line: &[u8], out: &mut [u8; 514]) -> Result<u64, Refusal>
    requires { Fit line.now run_line }
    ensures { Told (served run_line line.now) result out.old out.new }
{
    match run_in(line) {
        Ok(residue) => tell::tell_single(out, residue),
        Err(refusal) => tell::tell_refusal(out, refusal),
    }
}

// 07: a chain, run on residues. The service is lent no scratch, so the scratch is zeroed here.
pub fn serve_run(
    line: &[u8],
    scratch: &mut [u64; lent::SCRATCH],
    out: &mut [u8; 514],
) -> Result<u64, Refusal>
    requires { Fit line.now run_line }
    ensures { Handled (served run_line line.now) result
        scratch.old scratch.new out.old out.new }
{
    let replied = tell_run(line, out);
    lent::clear_scratch(scratch);
    replied
}

// 08: a tree word.
pub fn serve_tree(
    line: &[u8],
    scratch: &mut [u64; lent::SCRATCH],
    out: &mut [u8; 514],
) -> Result<u64, Refusal>
    requires { Fit line.now tree_line }
    ensures { Handled (served tree_line line.now) result
        scratch.old scratch.new out.old out.new }
{
    let mut letters = [0u8; 255];
    let k = letters_in(line, &mut letters);
    let mut places = [0u16; 64];
    let found = trees::read_tree(&letters[0..k], scratch, &mut places);
    tell::tell_found(out, found, &places)
}

// A refusal of kind 09, by whether the line tells the exponents of the largest part: 16 comes before 15.
fn refusal_by(refusal: Refusal, right: bool) -> Refusal
    ensures { refused_as result ≡ or_sixteen right (refused_as refusal) }
{
    if right {
        return refusal;
    }
    match refusal {
        Refusal::NoTreeWord => Refusal::WrongExponents,
        other => other,
    }
}

// The tree word of the record in a line of kind 09, by its part numbers.
fn tell_tree_of(line: &[u8], numbers: &[u16], out: &mut [u8; 514]) -> Result<u64, Refusal>
    ensures { Told
        (or_sixteen (same_part (exponents_in to_tree_line line.now) (largest_of numbers.now))
        (letters_reply (record_tree numbers.now)))
        result out.old out.new }
{
    let right = parts::is_largest(exponents_in(line, 2), numbers);
    let mut places = [0u8; 160];
    match trees::write_tree(numbers, &mut places) {
        Ok(k) => {
            if !right {
                return tell::tell_refusal(out, Refusal::WrongExponents);
            }
            tell::tell_letters(out, &places[0..k as usize])
        }
        Err(refusal) => tell::tell_refusal(out, refusal_by(refusal, right)),
    }
}

// The letters that a line of kind 09 asks for, or the refusal.
fn tell_tree(line: &[u8], out: &mut [u8; 514]) -> Result<u64, Refusal>
    requires { Fit line.now to_tree_line }
    ensures { Told (served to_tree_line line.now) result out.old out.new }
{
    let mut numbers = [0u16; 255];
    let k = numbers_in(line, &mut numbers);
    tell_tree_of(line, &numbers[0..k], out)
}

// 09: the tree word of a record's chain. The service is lent no scratch, so the scratch is zeroed here.
pub fn serve_to_tree(
    line: &[u8],
    scratch: &mut [u64; lent::SCRATCH],
    out: &mut [u8; 514],
) -> Result<u64, Refusal>
    requires { Fit line.now to_tree_line }
    ensures { Handled (served to_tree_line line.now) result
        scratch.old scratch.new out.old out.new }
{
    let replied = tell_tree(line, out);
    lent::clear_scratch(scratch);
    replied
}

// A fit line, by its kind.
pub fn serve_kind(
    kind: Kind,
    line: &[u8],
    scratch: &mut [u64; lent::SCRATCH],
    out: &mut [u8; 514],
) -> Result<u64, Refusal>
    requires { FitAs kind line.now }
    ensures { Handled (reply_to line.now) result
        scratch.old scratch.new out.old out.new }
{
    match kind {
        Kind::Count => serve_count(line, scratch, out),
        Kind::Best => serve_best(line, scratch, out),
        Kind::At => serve_at(line, scratch, out),
        Kind::Record => serve_record(line, scratch, out),
        Kind::Word => serve_word(line, scratch, out),
        Kind::Next => serve_next(line, scratch, out),
        Kind::Run => serve_run(line, scratch, out),
        Kind::Tree => serve_tree(line, scratch, out),
        Kind::ToTree => serve_to_tree(line, scratch, out),
    }
}
