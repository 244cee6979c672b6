// The refusals of document 01's table and of document 02's requests.
#![tactic(auto)]

ghost use Rattle.std.specs.Prelude.{◌≡◌};
ghost use Rattle.refusals.specs.Refusals.{number_of};

// Why a line or a call is refused. Each refusal has a number, which is what a refused line gets as its reply and what C gets.
#[derive(Clone, Copy, PartialEq, Eq)]
pub enum Refusal {
    // The scratch, the places or the bytes for the reply are too few.
    LittleLent = 1,
    // A line of no characters, an odd number of them or more than 514, or not of the length of its kind.
    BadLength = 2,
    // A character of a line is no digit.
    NoDigit = 3,
    // There is no such kind of line.
    UnknownKind = 4,
    // No chain is within the limits.
    NoChainFits = 5,
    // The position is not below the count.
    NoSuchPosition = 6,
    // A word is not good.
    BadWord = 7,
    // A part number is 1,344 or more, or there are more than 64.
    UnknownPart = 8,
    // A part is no proper multiple of the next.
    NotChained = 9,
    // The parts sum to 2^64 or more.
    TooLarge = 10,
    // The word's chain is the last one in its list.
    LastOfList = 11,
    // The plain count takes numbers up to 65,535 only.
    TooLargeToCount = 12,
    // A modulus is 0 or above 2^63.
    BadModulus = 13,
    // A residue is not below the modulus.
    BadResidue = 14,
    // Letters are no tree word, or the empty chain has none.
    NoTreeWord = 15,
    // The exponents that a record tells are not those of its largest part.
    WrongExponents = 16,
    // A state of a bench is no chain of its number, or a move's condition fails.
    NoMove = 17,
    // A name of a bench is above 7, or nothing was saved under it.
    NoSuchName = 18,
}

impl From<Refusal> for u8 {
    ghost from_gives = { λ refusal n. n ≡ number_of refusal };

    fn from(refusal: Refusal) -> u8 {
        refusal as u8
    }
}
