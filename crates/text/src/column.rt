// One column: what its bytes, read from left to right, make.
ghost use Rattle.std.specs.Prelude.{◌≡◌, ◌+◌, ◌≤◌, Some, IsSome, length};
ghost use Rattle.text.specs.Text.{column_at};
ghost use Rattle.text.specs.Reading.{step as step_of, after_digit, scan as scan_of, unsigned_of, signed_of};
ghost use Rattle.text.specs.inner.Capped.{capped};

// What the bytes so far are, where none of them is a fault.
#[derive(Clone, Copy)]
pub(crate) enum Part {
    // blanks only
    Blanks,
    // blanks and a minus
    Minus,
    // blanks, a minus or none, and the digits of a number
    Number { minus: bool, size: u64 },
}

impl Part {
    // The unsigned number, up to 4,294,967,295.
    pub(crate) fn unsigned(self) -> Option<u32>
        ensures { result ≡ unsigned_of (Some self) }
    {
        match self {
            Part::Number { minus: false, size } => u32::try_from(size).ok(),
            _ => None,
        }
    }

    // The signed 64-bit number, −2^63 included.
    pub(crate) fn signed(self) -> Option<i64>
        ensures { result ≡ signed_of (Some self) }
    {
        match self {
            Part::Number { minus: true, size } => 0i64.checked_sub_unsigned(size),
            Part::Number { minus: false, size } => i64::try_from(size).ok(),
            _ => None,
        }
    }
}

// One more digit. Above 64 bits, which is outside every type's range, a number is a fault.
fn after_digit(part: Part, digit: u64) -> Option<Part>
    requires { digit ≤ 9 }
    ensures { result ≡ capped (after_digit part digit) }
{
    match part {
        Part::Blanks => Some(Part::Number {
            minus: false,
            size: digit,
        }),
        Part::Minus if digit != 0 => Some(Part::Number {
            minus: true,
            size: digit,
        }),
        Part::Number { minus, size } if size != 0 => Some(Part::Number {
            minus,
            size: size.checked_mul(10)?.checked_add(digit)?,
        }),
        _ => None,
    }
}

// The part with one more byte: a blank and a minus stand only after blanks, and a byte that is neither nor a digit is a fault.
#[tactic(auto, unfolding(crate::specs::Reading::step))]
fn step(part: Part, byte: u8) -> Option<Part>
    ensures { result ≡ capped (step_of part byte) }
{
    match (part, byte) {
        (Part::Blanks, b' ') => Some(Part::Blanks),
        (Part::Blanks, b'-') => Some(Part::Minus),
        (_, b'0'..=b'9') => after_digit(part, (byte - b'0') as u64),
        _ => None,
    }
}

// A whole column.
fn scan(column: &[u8]) -> Option<Part>
    ensures { result ≡ capped (scan_of column.now) }
{
    let mut part = Part::Blanks;
    for byte in column {
        part = step(part, *byte)?;
    }
    Some(part)
}

// The column of this width at a place of the text; none where the text ends inside it.
pub(crate) fn column_at(text: &[u8], at: usize, width: usize) -> Option<Part>
    ensures value { result ≡ capped (column_at text.now at width) }
    ensures inside { IsSome result → at + width ≤ length text.now }
{
    scan(text.get(at..)?.get(..width)?)
}
