// A line of hexadecimal before it is served: its fields, its kind, whether it is refused by its shape, and its items. Document 01,
// 'Frames' and 'What a refused line or call gets'. A line is its characters, without the byte 10. Every public function here takes
// any input.
#![tactic(auto)]

ghost use Rattle.std.specs.Prelude.{◌≡◌, Ok, ◌++◌, ◌+◌, ◌*◌, ◌%◌, ◌^◌, ◌≤◌, ◌<◌, ℕ, length, drop, map, ok_or};
ghost use Rattle.digits.specs.Digits.{number_of};
ghost use Rattle.refusals.specs.declared.Refusal.TheVariants.{UnknownKind};
ghost use Rattle.std.proofs.Common.{lit≤};
ghost use Rattle.lines.specs.Kinds.{kind_of, row_of};
ghost use Rattle.lines.specs.Lines.{field, fields, bytes_in, count_in, shape_of, shape_code, read_items, items_count, items_left};

use refusals::Refusal;

// What a line is or asks for. The number of a kind is the first byte of its lines.
#[derive(Clone, Copy, PartialEq, Eq)]
pub enum Kind {
    // A count.
    Count = 1,
    // The best chain.
    Best = 2,
    // The chain at a position.
    At = 3,
    // A burned record.
    Record = 4,
    // A word.
    Word = 5,
    // The chain next to a word's.
    Next = 6,
    // A chain to run.
    Run = 7,
    // A tree word.
    Tree = 8,
    // A record whose tree word is asked for.
    ToTree = 9,
}

// The byte of a kind, as a shape in numbers tells it.
impl From<Kind> for u8 {
    ghost from_gives = { λ kind byte. shape_code (Ok kind) ≡ Ok byte };

    #[tactic(auto, unfolding(crate::specs::Lines::shape_code, crate::specs::Kinds::row_of))]
    fn from(kind: Kind) -> u8 {
        kind as u8
    }
}

// The kind of a byte. Every other byte is refused.
impl TryFrom<u8> for Kind {
    type Error = Refusal;

    ghost try_from_gives = { λ byte kind. kind ≡ ok_or (kind_of byte) UnknownKind };

    #[tactic(auto, unfolding(crate::specs::Kinds::kind_of, crate::specs::Kinds::kind_among, crate::specs::Kinds::kinds, crate::specs::Kinds::row_of))]
    fn try_from(byte: u8) -> Result<Kind, Refusal> {
        match byte {
            1 => Ok(Kind::Count),
            2 => Ok(Kind::Best),
            3 => Ok(Kind::At),
            4 => Ok(Kind::Record),
            5 => Ok(Kind::Word),
            6 => Ok(Kind::Next),
            7 => Ok(Kind::Run),
            8 => Ok(Kind::Tree),
            9 => Ok(Kind::ToTree),
            _ => Err(Refusal::UnknownKind),
        }
    }
}

// How a line of a kind is laid out: how many bytes stand before its items, which byte holds their number, and how many bytes an
// item has. A kind without items has width 0, and all its bytes stand before them.
#[derive(Clone, Copy)]
struct Row {
    before: usize,
    count_at: usize,
    width: usize,
}

impl Row {
    fn new(before: usize, count_at: usize, width: usize) -> Row
        ensures { (result.before ≡ before) × (result.count_at ≡ count_at) × (result.width ≡ width) }
    {
        Row {
            before,
            count_at,
            width,
        }
    }
}

impl Kind {
    #[tactic(auto, unfolding(crate::specs::Kinds::row_of))]
    fn row(self) -> Row
        ensures before { result.before ≡ (row_of self).before }
        ensures count_at { result.count_at ≡ (row_of self).count_at }
        ensures width { result.width ≡ (row_of self).width }
    {
        match self {
            Kind::Count => Row::new(9, 0, 0),
            Kind::Best => Row::new(20, 0, 0),
            Kind::At => Row::new(17, 0, 0),
            Kind::Record => Row::new(4, 1, 2),
            Kind::Word => Row::new(2, 1, 1),
            Kind::Next => Row::new(2, 1, 1),
            Kind::Run => Row::new(20, 17, 2),
            Kind::Tree => Row::new(2, 1, 1),
            Kind::ToTree => Row::new(4, 1, 2),
        }
    }

    // How many items a line of the kind says it has.
    #[tactic(auto, unfolding(crate::specs::Lines::count_in))]
    fn count_in(self, line: &[u8]) -> usize
        ensures { (result ≡ count_in self line.now) × (result < 256) }
    {
        usize::from(item_at::<u8>(line, self.row().count_at))
    }

    // How many bytes it must have.
    #[tactic(auto, using(crate::proofs::LineLaws::row_low), unfolding(crate::specs::Lines::bytes_in))]
    fn bytes_in(self, line: &[u8]) -> usize
        ensures { result ≡ bytes_in self line.now }
    {
        let row = self.row();
        row.before + row.width * self.count_in(line)
    }
}

// The value of k bytes from byte `at` on, highest first, modulo 2^64: the value itself where k is at most 8. Bytes past the end of
// the line are left out. The halves of lengths are compared, so that nothing wraps however large `at` and k are.
pub fn field_of(line: &[u8], at: usize, k: usize) -> u64
    ensures { result ≡ field line.now at k % 2 ^ 64 }
{
    let n = line.len();
    if n / 2 < at {
        return 0;
    }
    let from = 2 * at;
    if (n - from) / 2 < k {
        return digits::read_number(&line[from..]);
    }
    let to = from + 2 * k;
    digits::read_number(&line[from..to])
}

// An item of a line: a letter, which has one byte, or a part number, which has two.
trait Item: Copy {
    // The item as a number, and how many bytes it has.
    ghost value: { Self → ℕ };

    ghost WIDTH: { ℕ };

    const WIDTH: usize;

    // The item of a number, which is the number itself where it has no more bytes than an item.
    fn of(number: u64) -> Self
        ensures { value result ≡ number % 16 ^ (2 * WIDTH) };

    ghost narrow: { WIDTH ≤ 8 };
}

impl Item for u8 {
    ghost value = { λ letter. letter };

    ghost WIDTH = { 1 };

    const WIDTH: usize = 1;

    fn of(number: u64) -> u8 {
        (number % 256) as u8
    }

    ghost narrow = { lit≤ tt };
}

// `of` stands in both: a cast names its type.
impl Item for u16 {
    ghost value = { λ number. number };

    ghost WIDTH = { 2 };

    const WIDTH: usize = 2;

    fn of(number: u64) -> u16 {
        (number % 65536) as u16
    }

    ghost narrow = { lit≤ tt };
}

// One item from byte `at` on.
fn item_at<T: Item>(line: &[u8], at: usize) -> T
    ensures { T.value result ≡ field line.now at T.WIDTH }
{
    T::of(field_of(line, at, T::WIDTH))
}

// Two bytes.
pub fn pair_of(line: &[u8], at: usize) -> u16
    ensures { result ≡ field line.now at 2 }
{
    item_at(line, at)
}

// The kind of a line by its first byte.
fn kind_of(line: &[u8]) -> Result<Kind, Refusal>
    ensures { result ≡ ok_or (kind_of (field line.now 0 1)) UnknownKind }
{
    Kind::try_from(item_at::<u8>(line, 0))
}

// The shape of a line: its length in general, its characters, its kind, the length of its kind, in this order.
pub fn shape_of(line: &[u8]) -> Result<Kind, Refusal>
    ensures { result ≡ shape_of line.now }
{
    let n = line.len();
    if n == 0 || n % 2 == 1 || n > 514 {
        return Err(Refusal::BadLength);
    }
    if !digits::all_digits(line) {
        return Err(Refusal::NoDigit);
    }
    // By `match`, and not by `?`, so that an edit can change this refusal and no other.
    let kind = match kind_of(line) {
        Ok(kind) => kind,
        Err(why) => return Err(why),
    };
    if n / 2 != kind.bytes_in(line) {
        return Err(Refusal::BadLength);
    }
    Ok(kind)
}

// The item that some characters stand for, two of them for each of its bytes.
fn item_of<T: Item>(part: &[u8]) -> T
    requires { length part.now ≡ 2 * T.WIDTH }
    ensures { T.value result ≡ number_of part.now }
{
    let number = digits::read_number(part);
    T::of(number)
}

// Values of so many bytes each, `count` of them from byte `from` on, at the start of `places`.
fn read_fields<T: Item>(line: &[u8], from: usize, count: usize, places: &mut [T])
    requires { (2 * (from + T.WIDTH * count) ≤ length line.now) × (count ≤ length places.old) }
    ensures { map T.value places.new ≡ fields line.now from T.WIDTH count ++ drop count (map T.value places.old) }
{
    for i in 0..count {
        let start = 2 * (from + T::WIDTH * i);
        let end = start + 2 * T::WIDTH;
        places[i] = item_of(&line[start..end]);
    }
}

// The items of a line, at the start of `places`; how many there are is told. Refuses where fewer than 255 places are lent, where
// the line is of no kind that has such items, and where it is shorter than its kind; then nothing is written.
fn items_of<T: Item>(line: &[u8], places: &mut [T]) -> Result<usize, Refusal>
    ensures value { result ≡ items_count (read_items T.WIDTH line.now (length places.old)) }
    ensures places_after { map T.value places.new
        ≡ items_left (read_items T.WIDTH line.now (length places.old)) (map T.value places.old) }
{
    if places.len() < 255 {
        return Err(Refusal::LittleLent);
    }
    let kind = kind_of(line)?;
    let row = kind.row();
    if row.width != T::WIDTH {
        return Err(Refusal::UnknownKind);
    }
    if line.len() / 2 < kind.bytes_in(line) {
        return Err(Refusal::BadLength);
    }
    let count = kind.count_in(line);
    read_fields(line, row.before, count, places);
    Ok(count)
}

// The letters of the word in a line, one byte each, at the start of `letters`; how many there are is told. Refuses where fewer than
// 255 places are lent, where the line is of no kind that has letters, and where it is shorter than its kind; then nothing is
// written.
pub fn letters_of(line: &[u8], letters: &mut [u8]) -> Result<usize, Refusal>
    ensures value { result ≡ items_count (read_items 1 line.now (length letters.old)) }
    ensures letters_after { letters.new
        ≡ items_left (read_items 1 line.now (length letters.old)) letters.old }
{
    items_of(line, letters)
}

// The part numbers of the record in a line, two bytes each, in the same way.
pub fn numbers_of(line: &[u8], numbers: &mut [u16]) -> Result<usize, Refusal>
    ensures value { result ≡ items_count (read_items 2 line.now (length numbers.old)) }
    ensures numbers_after { numbers.new
        ≡ items_left (read_items 2 line.now (length numbers.old)) numbers.old }
{
    items_of(line, numbers)
}
