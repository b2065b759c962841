// The refusals: a case for each rule of 01 and 02 in the order in which they are tried, with its place where it has one.
#![tactic(auto)]

ghost use Rattle.std.specs.Prelude.{◌≡◌};
ghost use Rattle.refusal.specs.Number.{number_of, place_of};

#[derive(Clone, Copy, Debug, PartialEq, Eq)]
pub enum Refusal {
    // 1: the text departs from its form, or a number from its type's range, at this offset
    Form(usize),
    // 2: there is no coefficient
    NoCoefficient,
    // 3: there are more than 65 coefficients
    TooManyCoefficients,
    // 4: p is below 2 or above 65,535
    PrimeOutOfRange,
    // 14: p is composite; its least divisor above 1
    Composite(usize),
    // 5: n is 0, or pⁿ exceeds 4,294,967,295
    Precision,
    // 15: the tag is held already when adding, or is not held when withdrawing
    Tag,
    // 16: sixteen polynomials are held when adding
    Full,
    // 17: the precision to raise to is below the given one, or a given list has more than 64 entries
    PrecisionsFall,
    // 6: the lists differ in length; the shortest length
    Lengths(usize),
    // 7: the first index of a given list whose entry is not usable
    Entry(usize),
    // 8: the point is not below pⁿ
    Point,
    // 9: a map, or its count, is asked for with pⁿ above 524,288
    MapTooLarge,
    // 10: the map's length is not pⁿ / 8 rounded up
    MapLength,
    // 11: the lent lists have fewer slots than this number
    TooFewSlots(usize),
    // 12: the buffer has fewer bytes than this number
    BufferTooSmall(usize),
    // 13: 1,000 problems of a report are done and bytes remain; the offset of the first of them
    TooManyProblems(usize),
}

impl Refusal {
    // The rule's number.
    pub fn number(self) -> u32
        ensures { result ≡ number_of self }
    {
        match self {
            Refusal::Form(_) => 1,
            Refusal::NoCoefficient => 2,
            Refusal::TooManyCoefficients => 3,
            Refusal::PrimeOutOfRange => 4,
            Refusal::Composite(_) => 14,
            Refusal::Precision => 5,
            Refusal::Tag => 15,
            Refusal::Full => 16,
            Refusal::PrecisionsFall => 17,
            Refusal::Lengths(_) => 6,
            Refusal::Entry(_) => 7,
            Refusal::Point => 8,
            Refusal::MapTooLarge => 9,
            Refusal::MapLength => 10,
            Refusal::TooFewSlots(_) => 11,
            Refusal::BufferTooSmall(_) => 12,
            Refusal::TooManyProblems(_) => 13,
        }
    }

    // The place, 0 where the rule names none.
    pub fn place(self) -> usize
        ensures { result ≡ place_of self }
    {
        match self {
            Refusal::Form(place) => place,
            Refusal::NoCoefficient => 0,
            Refusal::TooManyCoefficients => 0,
            Refusal::PrimeOutOfRange => 0,
            Refusal::Composite(place) => place,
            Refusal::Precision => 0,
            Refusal::Tag => 0,
            Refusal::Full => 0,
            Refusal::PrecisionsFall => 0,
            Refusal::Lengths(place) => place,
            Refusal::Entry(place) => place,
            Refusal::Point => 0,
            Refusal::MapTooLarge => 0,
            Refusal::MapLength => 0,
            Refusal::TooFewSlots(place) => place,
            Refusal::BufferTooSmall(place) => place,
            Refusal::TooManyProblems(place) => place,
        }
    }
}
