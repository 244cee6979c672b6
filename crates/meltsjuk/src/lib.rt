// The services for C and Rust: `rt lib` writes the archive, out/libmeltsjuk.a; the header and the Rust package are in bindings/. Each
// function calls one service and turns its answer into a number, and numbers put where the caller asks. To C a slice is a pointer
// and a length.
#![tactic(auto)]

ghost use Rattle.std.specs.Prelude.{◌≡◌};
ghost use Rattle.lent.specs.Lent.{too_little, scratch_left, little_scratch, fewer, too_few, memory_left};
ghost use Rattle.ranking.specs.Services.{places_left};
ghost use Rattle.best.specs.Chosen as best;
ghost use Rattle.counting.specs.TableCount.{counted_of};
ghost use Rattle.limited.specs.Services.{table_size, counted_up_to};
ghost use Rattle.frames.specs.Replies.{out_left};
ghost use Rattle.trees.specs.Answers.{tree_left};
ghost use Rattle.running.specs.Ran.{ran_of};
ghost use Rattle.bench.specs.Benches.{open_outcome, move_outcome, save_outcome, back_outcome, bench_left};
ghost use Rattle.bench.specs.Benches.{walked_of, walk_left, told_of, places_left as toldLeft};
ghost use Rattle.meltsjuk.specs.Answers.{digits_or_refusal, status, value_or};
ghost use Rattle.meltsjuk.specs.Answers.{outcome_status, number_or, position_or, parts_or};
ghost use Rattle.meltsjuk.specs.Answers.{limits_of, prices_of, best_asked, price_or, cheapest_asked, place_asked};
ghost use Rattle.meltsjuk.specs.Answers.{tree_chain_asked, tree_asked, tree_status, letters_or};
ghost use Rattle.meltsjuk.specs.Answers.{moves_or, walked_parts_or};
ghost use Rattle.meltsjuk.specs.Answers.{told_number_or, told_parts_or};

use best::{Limits, Prices};
use refusals::Refusal;

// Puts the number that a service told where the caller asks for it. Answers 0, or the number of the refusal, and `place` is as it was.
fn put(told: Result<u64, Refusal>, place: &mut u64) -> u8
    ensures answer { result ≡ status told }
    ensures place { place.new ≡ value_or told place.old }
{
    match told {
        Ok(value) => {
            *place = value;
            0
        }
        Err(refusal) => u8::from(refusal),
    }
}

// The same of a service that tells no number.
fn status(done: Result<(), Refusal>) -> u8
    ensures { result ≡ status done }
{
    match done {
        Ok(()) => 0,
        Err(refusal) => u8::from(refusal),
    }
}

// Replying to one line, without its byte 10, as `frames::reply` does. Answers how many digits the reply in `out` has, two where the
// line is refused; or 1, which is no length, where too little is lent, and nothing is touched.
#[unsafe(no_mangle)]
pub extern "C" fn meltsjuk_reply(line: &[u8], scratch: &mut [u64], out: &mut [u8]) -> u64
    ensures answer { result ≡ digits_or_refusal (too_little 514 scratch.old out.old) line.now }
    ensures out { out.new
        ≡ out_left (too_little 514 scratch.old out.old) line.now out.old }
    ensures scratch { scratch.new
        ≡ scratch_left (too_little 514 scratch.old out.old) scratch.old }
{
    match frames::reply(line, scratch, out) {
        Ok(digits) => digits,
        Err(refusal) => if refusal == Refusal::LittleLent { 1 } else { 2 },
    }
}

// The count of n, as `counting::table_count` has it. Answers 0 with the count put in `count`, or 1, and `count` is as it was.
#[unsafe(no_mangle)]
pub extern "C" fn meltsjuk_count(n: u64, scratch: &mut [u64], count: &mut u64) -> u8
    ensures answer { result ≡ status (counted_of n scratch.old) }
    ensures count { count.new ≡ value_or (counted_of n scratch.old) count.old }
    ensures scratch { scratch.new ≡ scratch_left (little_scratch scratch.old) scratch.old }
{
    put(counting::table_count(n, scratch), count)
}

// How many chains of n have at most `parts` parts, as `limited::count_up_to` counts them. Answers 0 with the count put in `count`, or
// 1, and `count` is as it was.
#[unsafe(no_mangle)]
pub extern "C" fn meltsjuk_count_up_to(
    n: u64,
    parts: u8,
    scratch: &mut [u64],
    count: &mut u64,
) -> u8
    ensures answer { result ≡ status (counted_up_to parts n scratch.old) }
    ensures count { count.new ≡ value_or (counted_up_to parts n scratch.old) count.old }
    ensures scratch { scratch.new
        ≡ memory_left table_size (fewer table_size scratch.old) scratch.old }
{
    put(limited::count_up_to(n, parts, scratch), count)
}

// These two put the numbers that a caller hands over into limits and prices.
fn limits_by(parts: u8, a: u8, b: u8) -> Limits
    ensures { best.limits_of result ≡ limits_of parts a b }
{
    Limits {
        parts,
        doublings: a,
        triplings: b,
    }
}

fn prices_by(d: u16, t: u16, s2: u16, s3: u16) -> Prices
    ensures { best.prices_of result ≡ prices_of d t s2 s3 }
{
    Prices {
        doubling: d,
        tripling: t,
        addition_2: s2,
        addition_3: s3,
    }
}

// The best chain of n within the limits and by the prices, as `best::best_chain` finds it, its part numbers in the places. Answers
// 0 with the position, the number of parts and the price put in `position`, `k` and `price`, or 1 or 5, and the three are as they
// were.
#[unsafe(no_mangle)]
pub extern "C" fn meltsjuk_best(
    n: u64,
    parts_limit: u8,
    a_limit: u8,
    b_limit: u8,
    d: u16,
    t: u16,
    s2: u16,
    s3: u16,
    scratch: &mut [u64],
    places: &mut [u16],
    position: &mut u64,
    k: &mut u64,
    price: &mut u64,
) -> u8
    ensures answer { result
        ≡ outcome_status
        (best_asked scratch.old places.old n (limits_of parts_limit a_limit b_limit) (prices_of d t s2 s3)) }
    ensures position { position.new
        ≡ position_or
        (best_asked scratch.old places.old n (limits_of parts_limit a_limit b_limit) (prices_of d t s2 s3))
        position.old }
    ensures k { k.new
        ≡ parts_or
        (best_asked scratch.old places.old n (limits_of parts_limit a_limit b_limit) (prices_of d t s2 s3))
        k.old }
    ensures price { price.new
        ≡ price_or (prices_of d t s2 s3)
        (best_asked scratch.old places.old n (limits_of parts_limit a_limit b_limit) (prices_of d t s2 s3))
        price.old }
    ensures places { places.new
        ≡ places_left
        (best_asked scratch.old places.old n (limits_of parts_limit a_limit b_limit) (prices_of d t s2 s3))
        places.old }
    ensures scratch { scratch.new
        ≡ scratch_left (too_little 64 scratch.old places.old) scratch.old }
{
    let limits = limits_by(parts_limit, a_limit, b_limit);
    let prices = prices_by(d, t, s2, s3);
    match best::best_chain(n, limits, prices, scratch, places) {
        Ok(best) => {
            *position = best.position;
            *k = best.k;
            *price = best.price;
            0
        }
        Err(refusal) => u8::from(refusal),
    }
}

// Choosing: the same chain as `meltsjuk_best`, without its position, as `best::choose_chain` finds it, its part numbers in the
// places. Answers 0 with the number of parts and the price put in `k` and `price`, or 1 or 5, and the two are as they were.
#[unsafe(no_mangle)]
pub extern "C" fn meltsjuk_choose(
    n: u64,
    parts_limit: u8,
    a_limit: u8,
    b_limit: u8,
    d: u16,
    t: u16,
    s2: u16,
    s3: u16,
    scratch: &mut [u64],
    places: &mut [u16],
    k: &mut u64,
    price: &mut u64,
) -> u8
    ensures answer { result
        ≡ outcome_status
        (best_asked scratch.old places.old n (limits_of parts_limit a_limit b_limit) (prices_of d t s2 s3)) }
    ensures k { k.new
        ≡ parts_or
        (best_asked scratch.old places.old n (limits_of parts_limit a_limit b_limit) (prices_of d t s2 s3))
        k.old }
    ensures price { price.new
        ≡ price_or (prices_of d t s2 s3)
        (best_asked scratch.old places.old n (limits_of parts_limit a_limit b_limit) (prices_of d t s2 s3))
        price.old }
    ensures places { places.new
        ≡ places_left
        (best_asked scratch.old places.old n (limits_of parts_limit a_limit b_limit) (prices_of d t s2 s3))
        places.old }
    ensures scratch { scratch.new
        ≡ scratch_left (too_little 64 scratch.old places.old) scratch.old }
{
    let limits = limits_by(parts_limit, a_limit, b_limit);
    let prices = prices_by(d, t, s2, s3);
    match best::choose_chain(n, limits, prices, scratch, places) {
        Ok(chosen) => {
            *k = chosen.k;
            *price = chosen.price;
            0
        }
        Err(refusal) => u8::from(refusal),
    }
}

// The cheapest chain of n within the limits and by the prices, as `limited::cheapest_chain` finds it, its part numbers in the places.
// Answers 0 with the number of parts and the price put in `k` and `price`, or 1 or 5, and the two are as they were.
#[unsafe(no_mangle)]
pub extern "C" fn meltsjuk_cheapest(
    n: u64,
    parts_limit: u8,
    a_limit: u8,
    b_limit: u8,
    d: u16,
    t: u16,
    s2: u16,
    s3: u16,
    scratch: &mut [u64],
    places: &mut [u16],
    k: &mut u64,
    price: &mut u64,
) -> u8
    ensures answer { result
        ≡ outcome_status
        (cheapest_asked scratch.old places.old n (limits_of parts_limit a_limit b_limit) (prices_of d t s2 s3)) }
    ensures k { k.new
        ≡ parts_or
        (cheapest_asked scratch.old places.old n (limits_of parts_limit a_limit b_limit) (prices_of d t s2 s3))
        k.old }
    ensures price { price.new
        ≡ price_or (prices_of d t s2 s3)
        (cheapest_asked scratch.old places.old n (limits_of parts_limit a_limit b_limit) (prices_of d t s2 s3))
        price.old }
    ensures places { places.new
        ≡ places_left
        (cheapest_asked scratch.old places.old n (limits_of parts_limit a_limit b_limit) (prices_of d t s2 s3))
        places.old }
    ensures scratch { scratch.new
        ≡ memory_left table_size (too_few table_size 64 scratch.old places.old) scratch.old }
{
    let limits = limits_by(parts_limit, a_limit, b_limit);
    let prices = prices_by(d, t, s2, s3);
    match limited::cheapest_chain(n, limits, prices, scratch, places) {
        Ok(chosen) => {
            *k = chosen.k;
            *price = chosen.price;
            0
        }
        Err(refusal) => u8::from(refusal),
    }
}

// Placing: the position of the chain whose part numbers are `numbers`, largest part first, in the list of the number that the parts
// sum to, as `ranking::place_record` tells it. Answers 0 with the position put in `position`, or 1, 8, 9 or 10, and `position` is as
// it was.
#[unsafe(no_mangle)]
pub extern "C" fn meltsjuk_place(numbers: &[u16], scratch: &mut [u64], position: &mut u64) -> u8
    ensures answer { result ≡ outcome_status (place_asked scratch.old numbers.now) }
    ensures position { position.new
        ≡ position_or (place_asked scratch.old numbers.now) position.old }
    ensures scratch { scratch.new ≡ scratch_left (little_scratch scratch.old) scratch.old }
{
    // By `match`, and not by `put`, so that an edit can change this position and no other number.
    match ranking::place_record(numbers, scratch) {
        Ok(told) => {
            *position = told;
            0
        }
        Err(refusal) => u8::from(refusal),
    }
}

// The chain whose part numbers are `numbers`, largest part first, run on x modulo m, as `running::run_chain` does. Answers 0 with
// the residue put in `residue`, or 13, 14, 8, 9 or 10, and `residue` is as it was.
#[unsafe(no_mangle)]
pub extern "C" fn meltsjuk_run(numbers: &[u16], m: u64, x: u64, residue: &mut u64) -> u8
    ensures answer { result ≡ status (ran_of numbers.now m x) }
    ensures residue { residue.new ≡ value_or (ran_of numbers.now m x) residue.old }
{
    put(running::run_chain(numbers, m, x), residue)
}

// The chain of the tree word `letters`, as `trees::read_tree` finds it, its part numbers in the places. Answers 0 with the number
// that its parts sum to, its position and the number of its parts put in `n`, `position` and `k`, or 1, 15 or 10, and the three are
// as they were.
#[unsafe(no_mangle)]
pub extern "C" fn meltsjuk_read_tree(
    letters: &[u8],
    scratch: &mut [u64],
    places: &mut [u16],
    n: &mut u64,
    position: &mut u64,
    k: &mut u64,
) -> u8
    ensures answer { result ≡ outcome_status (tree_chain_asked scratch.old places.old letters.now) }
    ensures n { n.new
        ≡ number_or (tree_chain_asked scratch.old places.old letters.now) n.old }
    ensures position { position.new
        ≡ position_or (tree_chain_asked scratch.old places.old letters.now) position.old }
    ensures k { k.new
        ≡ parts_or (tree_chain_asked scratch.old places.old letters.now) k.old }
    ensures places { places.new
        ≡ places_left (tree_chain_asked scratch.old places.old letters.now) places.old }
    ensures scratch { scratch.new
        ≡ scratch_left (too_little 64 scratch.old places.old) scratch.old }
{
    match trees::read_tree(letters, scratch, places) {
        Ok(found) => {
            *n = found.n;
            *position = found.position;
            *k = found.k;
            0
        }
        Err(refusal) => u8::from(refusal),
    }
}

// The tree word of the chain whose part numbers are `numbers`, largest part first, as `trees::write_tree` writes it, its letters in
// the places. Answers 0 with the number of letters put in `k`, or 1, 8, 9, 10 or 15, and `k` is as it was.
#[unsafe(no_mangle)]
pub extern "C" fn meltsjuk_write_tree(numbers: &[u16], places: &mut [u8], k: &mut u64) -> u8
    ensures answer { result ≡ tree_status (tree_asked places.old numbers.now) }
    ensures k { k.new ≡ letters_or (tree_asked places.old numbers.now) k.old }
    ensures places { places.new
        ≡ tree_left (tree_asked places.old numbers.now) places.old }
{
    put(trees::write_tree(numbers, places), k)
}

// Opens a bench on the chain whose part numbers are `numbers`, largest part first, as `bench::open_bench` does. Answers 0, and the
// bench holds the chain with no name saved; or 1, 8, 9 or 10, and the bench is as it was.
#[unsafe(no_mangle)]
pub extern "C" fn meltsjuk_open_bench(numbers: &[u16], bench: &mut [u64]) -> u8
    ensures answer { result ≡ status (open_outcome numbers.now bench.old) }
    ensures bench { bench.new
        ≡ bench_left (open_outcome numbers.now bench.old) bench.old }
{
    status(bench::open_bench(numbers, bench))
}

// A move of the present chain, of kind 1 or 2, up or down, at a row, as `bench::move_chain` makes it. Answers 0; or 1 or 17, and
// the bench is as it was.
#[unsafe(no_mangle)]
pub extern "C" fn meltsjuk_move(bench: &mut [u64], kind: u8, up: bool, row: u8) -> u8
    ensures answer { result ≡ status (move_outcome kind up row bench.old) }
    ensures bench { bench.new ≡ bench_left (move_outcome kind up row bench.old) bench.old }
{
    status(bench::move_chain(bench, kind, up, row))
}

// Saves the present chain under a name, as `bench::save_chain` does. Answers 0; or 1, 17 or 18, and the bench is as it was.
#[unsafe(no_mangle)]
pub extern "C" fn meltsjuk_save(bench: &mut [u64], name: u8) -> u8
    ensures answer { result ≡ status (save_outcome name bench.old) }
    ensures bench { bench.new ≡ bench_left (save_outcome name bench.old) bench.old }
{
    status(bench::save_chain(bench, name))
}

// Comes back to the chain saved under a name, as `bench::come_back` does. Answers 0; or 1, 17 or 18, and the bench is as it was.
#[unsafe(no_mangle)]
pub extern "C" fn meltsjuk_come_back(bench: &mut [u64], name: u8) -> u8
    ensures answer { result ≡ status (back_outcome name bench.old) }
    ensures bench { bench.new ≡ bench_left (back_outcome name bench.old) bench.old }
{
    status(bench::come_back(bench, name))
}

// Walks the present chain down to the binary one, as `bench::walk_chain` does. Answers 0 with the number of moves and the number of
// parts of the binary chain put in `moves` and `k`; or 1 or 17, and the bench and the two are as they were.
#[unsafe(no_mangle)]
pub extern "C" fn meltsjuk_walk(bench: &mut [u64], moves: &mut u64, k: &mut u64) -> u8
    ensures answer { result ≡ status (walked_of bench.old) }
    ensures moves { moves.new ≡ moves_or (walked_of bench.old) moves.old }
    ensures k { k.new ≡ walked_parts_or (walked_of bench.old) k.old }
    ensures bench { bench.new ≡ walk_left bench.old }
{
    match bench::walk_chain(bench) {
        Ok(walked) => {
            *moves = walked.moves;
            *k = walked.k;
            0
        }
        Err(refusal) => u8::from(refusal),
    }
}

// The present chain, as `bench::tell_chain` tells it, its part numbers in the places. Answers 0 with the bench's number and the
// number of parts put in `n` and `k`; or 1 or 17, and the places and the two are as they were.
#[unsafe(no_mangle)]
pub extern "C" fn meltsjuk_tell(bench: &[u64], places: &mut [u16], n: &mut u64, k: &mut u64) -> u8
    ensures answer { result ≡ status (told_of bench.now places.old) }
    ensures n { n.new ≡ told_number_or (told_of bench.now places.old) n.old }
    ensures k { k.new ≡ told_parts_or (told_of bench.now places.old) k.old }
    ensures places { places.new ≡ toldLeft bench.now places.old }
{
    match bench::tell_chain(bench, places) {
        Ok(told) => {
            *n = told.n;
            *k = told.k;
            0
        }
        Err(refusal) => u8::from(refusal),
    }
}
