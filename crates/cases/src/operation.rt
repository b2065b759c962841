// What a case asks for, by the letter of its line.
#[derive(Clone, Copy)]
pub(crate) enum Operation {
    Solve,
    // the solver's number of live classes
    Live,
    // the counts at every precision
    Counts,
    // a list raised to a higher precision
    Raise,
    Test,
    // the test of eight points
    Points,
    // the next root
    Next,
    Map,
    // the count of a map of these bytes, and of the map of 0/1
    CountBytes,
    CountFilled,
    Write,
    // the writer on lists in pairs
    WritePairs,
    Steps,
    // the simple digits
    Digits,
    // a system's opening; adding, withdrawal and fetching on the one that the cases before have left
    Open,
    Add,
    Withdraw,
    Fetch,
}

impl From<u8> for Operation {
    fn from(letter: u8) -> Operation {
        match letter {
            b's' => Operation::Solve,
            b'l' => Operation::Live,
            b'e' => Operation::Counts,
            b'u' => Operation::Raise,
            b't' => Operation::Test,
            b'q' => Operation::Points,
            b'n' => Operation::Next,
            b'm' => Operation::Map,
            b'c' => Operation::CountBytes,
            b'd' => Operation::CountFilled,
            b'w' => Operation::Write,
            b'r' => Operation::Steps,
            b'h' => Operation::Digits,
            b'o' => Operation::Open,
            b'a' => Operation::Add,
            b'v' => Operation::Withdraw,
            b'f' => Operation::Fetch,
            _ => Operation::WritePairs,
        }
    }
}

impl Operation {
    // How many numbers of the call belong to a class.
    pub(crate) fn each(self) -> usize {
        match self {
            Operation::CountBytes => 1,
            Operation::Write => 3,
            _ => 2,
        }
    }
}
