// The text reader: columns read by a cursor, and the problem reader.
#![tactic(auto)]

ghost use Rattle.std.specs.Prelude.{◌≡◌, ◌+◌, ◌*◌, ◌≤◌};
ghost use Rattle.text.specs.Text.{cursor_at, unsigned_at, signed_at, line_end_at};
ghost use Rattle.refusal.specs.Rules.{tried, value_or};
ghost use Rattle.text.specs.Form.{coefficient_rules, coefficients_at, row_of, problem_at, problem_of};

use refusal::Refusal;

mod column;

// A place in a text. Each method reads what stands there and hands back the moved cursor.
#[derive(Clone, Copy)]
pub struct Cursor {
    pub at: usize,
}

impl Cursor {
    // The unsigned number, up to 4,294,967,295, in the column of this width, and the place after it.
    pub fn unsigned(self, text: &[u8], width: usize) -> Option<(u32, Cursor)>
        ensures { result ≡ unsigned_at text.now self.at width }
    {
        let x = column::column_at(text, self.at, width)?.unsigned()?;
        let next = Cursor {
            at: self.at + width,
        };
        Some((x, next))
    }

    // The signed 64-bit number, −2^63 included, in the column of this width, and the place after it.
    pub fn signed(self, text: &[u8], width: usize) -> Option<(i64, Cursor)>
        ensures { result ≡ signed_at text.now self.at width }
    {
        let x = column::column_at(text, self.at, width)?.signed()?;
        let next = Cursor {
            at: self.at + width,
        };
        Some((x, next))
    }

    // The place after the line end, byte 10.
    pub fn line_end(self, text: &[u8]) -> Option<Cursor>
        ensures { result ≡ line_end_at text.now self.at }
    {
        if *text.get(self.at)? != b'\n' {
            return None;
        }
        Some(Cursor { at: self.at + 1 })
    }
}

#[derive(Clone, Copy)]
pub struct Problem {
    pub p: u32,
    pub n: u32,
    // the number of coefficients
    pub count: usize,
    // the place after the last line
    pub end: usize,
    // zero after the last that was read
    pub coefficients: [i64; 65],
}

// The row of the coefficients whose lines start here, and the place after the last.
fn read_coefficients(
    text: &[u8],
    start: Cursor,
    count: usize,
) -> Result<([i64; 65], Cursor), Refusal>
    requires { count ≤ 65 }
    ensures { result ≡ value_or (tried (coefficient_rules text.now start.at count))
        (row_of (coefficients_at text.now start.at count), cursor_at (start.at + 21 * count)) }
{
    let mut row = [0i64; 65];
    let mut cursor = start;
    for slot in row[..count].iter_mut() {
        let (x, end) = cursor.signed(text, 20).ok_or(Refusal::Form(cursor.at))?;
        cursor = end.line_end(text).ok_or(Refusal::Form(end.at))?;
        *slot = x;
    }
    Ok((row, cursor))
}

// The problem whose first line starts at this place of the text: p, n, the coefficients, and the place after its last line, whatever
// follows. Rules 1, 2 and 3; places are offsets in the whole text.
pub fn read_problem_at(text: &[u8], at: usize) -> Result<Problem, Refusal>
    ensures { result ≡ problem_at text.now at }
{
    let first = Cursor { at };
    let (p, second) = first.unsigned(text, 11).ok_or(Refusal::Form(at))?;
    let (n, third) = second.unsigned(text, 11).ok_or(Refusal::Form(second.at))?;
    let (count, end) = third.unsigned(text, 11).ok_or(Refusal::Form(third.at))?;
    let next = end.line_end(text).ok_or(Refusal::Form(end.at))?;
    if count == 0 {
        return Err(Refusal::NoCoefficient);
    }
    if 65 < count {
        return Err(Refusal::TooManyCoefficients);
    }
    let count = count as usize;
    let (coefficients, last) = read_coefficients(text, next, count)?;
    Ok(Problem {
        p,
        n,
        count,
        end: last.at,
        coefficients,
    })
}

// The problem that is the whole text: after its last line the text must end. Rules 1, 2 and 3.
pub fn read_problem(text: &[u8]) -> Result<Problem, Refusal>
    ensures { result ≡ problem_of text.now }
{
    let problem = read_problem_at(text, 0)?;
    if problem.end < text.len() {
        return Err(Refusal::Form(problem.end));
    }
    Ok(problem)
}
