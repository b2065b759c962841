// Numbers in columns, and lines of columns.
ghost use Rattle.std.specs.Prelude.{◌≡◌, ◌++◌, ◌+◌, ◌≤◌, ◌<◌, length, drop};
ghost use Rattle.columns.specs.Column.{column, signed_column};
ghost use Rattle.writer.specs.inner.Place.{laid, left_of, left_byte, number_of};
ghost use Rattle.writer.specs.Output.{line};

// The byte next to the left of a digit, where y is the number without that digit: its last digit, or `lead` where it has none.
#[tactic(auto, unfolding(crate::specs::inner::Place::left_byte))]
fn left_byte(y: u64, lead: u8) -> u8
    ensures { result ≡ left_byte lead y }
{
    if y == 0 { lead } else { (y % 10) as u8 + b'0' }
}

// The digits of y, if it has any, at the right end of the first width bytes, left of them the sign, and blanks left of it.
fn put_left(part: &mut [u8], width: usize, y: u64, sign: u8)
    requires { width ≤ length part.old }
    ensures { part.new ≡ left_of sign width y ++ drop width part.old }
{
    let mut rest = y;
    let mut lead = sign;
    for i in (0..width).rev() {
        part[i] = left_byte(rest, lead);
        if rest == 0 {
            lead = b' ';
        }
        rest /= 10;
    }
}

// The digits of x, with the sign before them, at the right end of the first width bytes, and blanks left of them.
fn put_number(part: &mut [u8], width: usize, x: u64, sign: u8)
    requires { (0 < width) × (width ≤ length part.old) }
    ensures { part.new ≡ number_of sign width x ++ drop width part.old }
{
    let last = width - 1;
    part[last] = (x % 10) as u8 + b'0';
    put_left(part, last, x / 10, sign);
}

// The column of x, from the place at on.
pub(crate) fn put_column(text: &mut [u8], at: usize, width: usize, x: u64)
    requires { (0 < width) × (at + width ≤ length text.old) }
    ensures { text.new ≡ laid at (column width x) text.old }
{
    put_number(&mut text[at..], width, x, b' ');
}

// The same for a signed number.
fn put_signed_column(text: &mut [u8], at: usize, width: usize, z: i64)
    requires { (0 < width) × (at + width ≤ length text.old) }
    ensures { text.new ≡ laid at (signed_column width z) text.old }
{
    let sign = if z < 0 { b'-' } else { b' ' };
    put_number(&mut text[at..], width, z.unsigned_abs(), sign);
}

// A line of four columns, from the place at on.
pub(crate) fn put_line(text: &mut [u8], at: usize, a: i64, b: u64, c: u64, d: u64)
    requires { at + 45 ≤ length text.old }
    ensures { text.new ≡ laid at (line a b c d) text.old }
{
    put_signed_column(text, at, 11, a);
    put_column(text, at + 11, 11, b);
    put_column(text, at + 22, 11, c);
    put_column(text, at + 33, 11, d);
    text[at + 44] = b'\n';
}
