// The line of a row of numbers.
ghost use Rattle.std.specs.Prelude.{◌≡◌, ◌+◌, ◌*◌, ◌≤◌, length};
ghost use Rattle.writer.specs.inner.Place.{laid};
ghost use Rattle.writer.specs.Output.{row_line};

use crate::column;

// The line, at the front of the text. It returns how many bytes it has.
pub(crate) fn put_row(row: &[u64], text: &mut [u8]) -> usize
    requires { 20 * length row.now + 1 ≤ length text.old }
    ensures bytes { result ≡ length (row_line row.now) }
    ensures text { text.new ≡ laid 0 (row_line row.now) text.old }
{
    for (i, x) in row.iter().enumerate() {
        column::put_column(text, 20 * i, 20, *x);
    }
    let end = 20 * row.len();
    text[end] = b'\n';
    end + 1
}
