// The letters of a record's word, written from the largest part back: the letter of a point stands at place a + b. Each of the 64
// places is written, with a letter or with a zero.
ghost use Rattle.std.specs.Prelude.{◌≡◌, ◌-◌, ◌<◌, ◌≤◌, length, drop, replicate};
ghost use Rattle.chains.specs.Words.{path, marked, walk, word_of};
ghost use Rattle.lent.specs.Lent.{filled};
ghost use Rattle.words.specs.Records.{record_parts};
ghost use Rattle.words.specs.Walks.{point, place, between, OnTheWay, WayBack, Writable};

use super::entries::Table;
use parts::Exponents;

// The letters from the point q up to p, none of them a part: b rises before a.
fn write_path(places: &mut [u8], q: Exponents, p: Exponents)
    requires { OnTheWay (point q) (point p) (length places.old) }
    ensures { places.new
        ≡ between (place (point q)) (place (point p)) (path (point q) (point p)) places.old }
{
    let from = (q.a + q.b) as usize;
    let turn = (q.a + p.b) as usize;
    let to = (p.a + p.b) as usize;
    places[from..turn].fill(2);
    places[turn..to].fill(0);
}

// The same letters where q is a part.
fn write_marked(places: &mut [u8], q: Exponents, p: Exponents)
    requires { OnTheWay (point q) (point p) (length places.old) × (place (point q) < place (point p)) }
    ensures { places.new
        ≡ between (place (point q)) (place (point p)) (marked (path (point q) (point p))) places.old }
{
    write_path(places, q, p);
    let from = (q.a + q.b) as usize;
    places[from] += 1;
}

// The letters before that of the largest part, from each part back to the next and from the last one to (0, 0).
fn write_back(table: Table<'_>, numbers: &[u16], largest: Exponents, places: &mut [u8])
    requires { WayBack table.codes.now numbers.now 1 (point largest) (length places.old) }
    ensures { places.new
        ≡ walk (point largest) (record_parts (drop 1 numbers.now))
        (drop (place (point largest)) places.old) }
{
    let mut p = largest;
    for i in 1..numbers.len() {
        let q = table.part_of(numbers[i]);
        write_marked(places, q, p);
        p = q;
    }
    write_path(places, Exponents { a: 0, b: 0 }, p);
}

// The letters of a record's word, then zeros up to 64. Tells how many letters there are.
pub fn write_letters(table: Table<'_>, numbers: &[u16], places: &mut [u8]) -> u64
    requires { Writable table.codes.now numbers.now (length places.old) }
    ensures value { result ≡ length (word_of (record_parts numbers.now)) }
    ensures places_after { places.new ≡ filled 64 (word_of (record_parts numbers.now)) places.old }
{
    if numbers.len() == 0 {
        places[0..64].fill(0);
        return 0;
    }
    let largest = table.part_of(numbers[0]);
    let last = (largest.a + largest.b) as usize;
    places[last] = 3;
    places[last + 1..64].fill(0);
    write_back(table, numbers, largest, places);
    (last + 1) as u64
}
