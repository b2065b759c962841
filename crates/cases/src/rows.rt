// The parts of a text, and the numbers of a part.
use crate::list::first;

// The text up to and with its first stop or line's end, or all where it has neither; and what is left.
pub(crate) fn part(text: &[u8], stop: u8) -> (&[u8], &[u8]) {
    let stops = text.iter().position(|b| *b == stop || *b == b'\n');
    let end = stops.map_or(text.len(), |i| i.saturating_add(1));
    text.split_at(end.min(text.len()))
}

// The numbers of a part, and zeros after them. There is room for 256: those after them start at the front again.
#[derive(Drop)]
pub(crate) struct Row {
    // how many there are, without one that ends the text
    pub(crate) count: usize,
    // the index of the number after the last letter p
    pub(crate) p: usize,
    items: [u64; 256],
    // the numbers with their signs
    signed: [i64; 256],
}

// x with one digit more, 0 for a byte that is no digit.
fn with_digit(x: u64, b: u8) -> u64 {
    match b {
        b'0'..=b'9' => x % 1844674407370955161 * 10 + u64::from(b - b'0'),
        _ => 0,
    }
}

// x, or −x.
fn with_sign(x: u64, negative: bool) -> i64 {
    if negative {
        !((x.wrapping_sub(1) % 9223372036854775808) as i64)
    } else {
        (x % 9223372036854775808) as i64
    }
}

impl Row {
    // A minus counts if a digit follows it.
    pub(crate) fn read(part: &[u8]) -> Row {
        let mut row = Row {
            count: 0,
            p: 0,
            items: [0; 256],
            signed: [0; 256],
        };
        let mut x = 0;
        let mut open = false;
        let mut negative = false;
        for b in part {
            let digit = b.is_ascii_digit();
            row.count = row.count.wrapping_add(usize::from(open && !digit));
            x = with_digit(x, *b);
            negative = (negative && digit) || *b == b'-';
            open = digit;
            row.items[row.count % 256] = x;
            row.signed[row.count % 256] = with_sign(x, negative);
            if *b == b'p' {
                row.p = row.count;
            }
        }
        row
    }

    // All of them with their signs.
    pub(crate) fn all(&self) -> &[i64] {
        first(&self.signed, self.count)
    }

    // The number of index i without its sign.
    pub(crate) fn item(&self, i: usize) -> u64 {
        self.items[i % 256]
    }

    // The same as a number of 32 bits.
    pub(crate) fn word(&self, i: usize) -> u32 {
        (self.item(i) % 4294967296) as u32
    }

    // The same as a level or a mark.
    pub(crate) fn byte(&self, i: usize) -> u8 {
        (self.item(i) % 256) as u8
    }

    // The number of index i with its sign, for one of 32 bits.
    pub(crate) fn residue(&self, i: usize) -> i32 {
        let x = self.signed[i % 256];
        if x < 0 {
            !((!x % 2147483648) as i32)
        } else {
            (x % 2147483648) as i32
        }
    }
}
