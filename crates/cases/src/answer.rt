// An answer, as its text in a case says it.
use crate::case::Case;
use refusal::Refusal;

#[derive(Clone, Copy)]
pub(crate) struct Answer {
    pub(crate) said: Result<Said, Refusal>,
    // whether everything lent has its expected content
    pub(crate) same: bool,
}

#[derive(Clone, Copy)]
pub(crate) enum Said {
    // how many, and the root count
    Classes(usize, u64),
    Yes,
    No,
    Done,
    Filled,
    // a power of p, and the first simple digit
    Digits(u64, u32),
    Number(u64),
    // a row, which is lent
    Numbers,
}

impl Answer {
    // Of a call to which nothing is lent that it writes.
    pub(crate) fn alone(said: Result<Said, Refusal>) -> Answer {
        Answer { said, same: true }
    }

    // Whether the case's text says this: its letter, and its first two numbers.
    pub(crate) fn agrees(&self, case: &Case) -> bool {
        let given = (case.expected.item(0), case.expected.item(1));
        let (letter, numbers) = match self.said {
            Ok(Said::Classes(k, roots)) => (b'k', (k as u64, roots)),
            Ok(Said::Yes) => (b'y', (0, 0)),
            Ok(Said::No) => (b'n', (0, 0)),
            Ok(Said::Done) => (b'd', (0, 0)),
            Ok(Said::Filled) => (b'f', given),
            Ok(Said::Digits(power, digit)) => (b'p', (power, u64::from(digit))),
            Ok(Said::Number(x)) => (b'#', (x, 0)),
            Ok(Said::Numbers) => (b'#', given),
            Err(r) => (b'r', (r.number() as u64, r.place() as u64)),
        };
        self.same && letter == case.letter && numbers == given
    }
}
