// A case as its text says it.
ghost use Rattle.std.specs.Prelude.{◌≤◌, ◌<◌};

use crate::list::first;
use crate::lists::Lists;
use crate::operation::Operation;
use crate::rows::{Row, part};

#[derive(Drop)]
pub(crate) struct Case<'a> {
    pub(crate) operation: Operation,
    // the numbers of slots
    pub(crate) slots: Row,
    // the coefficients
    pub(crate) f: Row,
    pub(crate) said: Row,
    pub(crate) lists: Lists,
    pub(crate) expected: Row,
    // the answer's first letter, or # for a digit
    pub(crate) letter: u8,
    // the text of call and answer, as it is printed
    pub(crate) printed: &'a [u8],
    // the text after the case
    pub(crate) after: &'a [u8],
    // what the writer is to write
    pub(crate) written: &'a [u8],
}

// What follows in the text. Where it fills its 65,536 bytes, the first follows the last.
fn following<'a>(text: &'a [u8], after: &'a [u8]) -> &'a [u8] {
    if after.is_empty() && text.len() == 65536 {
        text
    } else {
        after
    }
}

// The letter of the answer that stands there: # for a digit, 0 where there is none.
fn letter(text: &[u8]) -> u8 {
    match text.get(1) {
        Some(b'0'..=b'9') => b'#',
        Some(b) => *b,
        None => 0,
    }
}

impl<'a> Case<'a> {
    // The case of an operation's letter, which starts what is left of the text. A part that lacks its stop ends with its line, and the
    // next part is read from the next line.
    pub(crate) fn read(operation: u8, text: &'a [u8], rest: &'a [u8]) -> Case<'a> {
        let operation = Operation::from(operation);
        let (slots, rest) = part(rest, b';');
        let (f, called) = part(rest, b'|');
        let (call, rest) = part(called, b':');
        let (answer, after) = part(rest, b'\n');
        let said = Row::read(call);
        let lists = Lists::read(&said, operation.each());
        Case {
            operation,
            slots: Row::read(slots),
            f: Row::read(f),
            said,
            lists,
            expected: Row::read(answer),
            letter: letter(following(text, rest)),
            printed: first(called, call.len().saturating_add(answer.len())),
            after,
            written: following(text, after),
        }
    }

    // A number of the call, counted from p on.
    pub(crate) fn call(&self, i: usize) -> u32 {
        self.said.word(self.said.p.wrapping_add(i))
    }

    pub(crate) fn p(&self) -> u32 {
        self.call(0)
    }

    pub(crate) fn n(&self) -> u32 {
        self.call(1)
    }

    // The number after p and n.
    pub(crate) fn point(&self) -> u32 {
        self.call(2)
    }

    // How many numbers stand before p.
    pub(crate) fn before(&self) -> usize
        ensures { result < 256 }
    {
        self.said.p % 256
    }

    // The number of slots of a list: 65 where none is given.
    pub(crate) fn slots(&self, i: usize) -> usize
        ensures { result ≤ 66 }
    {
        if self.slots.count == 0 {
            65
        } else {
            (self.slots.item(i) % 67) as usize
        }
    }
}
