// The text writer: a list of classes, a refusal, or a row of numbers, as lines of columns in a lent text.
#![tactic(auto)]

ghost use Rattle.std.specs.Prelude.{◌≡◌, ◌++◌, ◌+◌, ◌*◌, ◌^◌, ◌≤◌, length, take, drop};
ghost use Rattle.refusal.specs.Rules.{filled, rule12, value_or};
ghost use Rattle.classes.specs.Rule7.{classes_of};
ghost use Rattle.classes.specs.inner.Usable.{UsableMarked};
ghost use Rattle.writer.specs.Output.{output_text, refusal_line, row_line};
ghost use Rattle.writer.specs.Written.{writer_verdict, written_of, refusal_verdict, refusal_written_of};

use refusal::Refusal;

mod column;
mod lines;
mod row;

// The output for a list of classes: a line of p, n, the number of classes and the root count, then a line a class of residue, level,
// number of members and mark; bytes after the last line keep their content. It returns how many bytes it wrote. Rules 4, 14, 5, 6, 7 and
// 12; a refusal alters nothing.
pub fn write_classes(
    p: u32,
    n: u32,
    residues: &[i32],
    levels: &[u8],
    marks: &[u8],
    text: &mut [u8],
) -> Result<usize, Refusal>
    ensures answer { result ≡ written_of p n residues.now levels.now marks.now
        (length text.old) }
    ensures text { text.new
        ≡ filled (writer_verdict p n residues.now levels.now marks.now (length text.old))
        (output_text p n (classes_of residues.now levels.now) marks.now) text.old }
{
    classes::check_marked_list(p, n, residues, levels, marks)?;
    write_checked(p, n, residues, levels, marks, text)
}

// Rule 12 for lists that pass the others, and the text.
fn write_checked(
    p: u32,
    n: u32,
    residues: &[i32],
    levels: &[u8],
    marks: &[u8],
    text: &mut [u8],
) -> Result<usize, Refusal>
    requires { UsableMarked p n residues.now levels.now marks.now (p ^ n) }
    ensures answer { result ≡ value_or (rule12 (length text.old) (length residues.now))
        (45 * (length residues.now + 1)) }
    ensures text { text.new
        ≡ filled (rule12 (length text.old) (length residues.now))
        (output_text p n (classes_of residues.now levels.now) marks.now) text.old }
{
    let k = residues.len();
    let bytes = 45 * (k + 1);
    if text.len() < bytes {
        return Err(Refusal::BufferTooSmall(bytes));
    }
    let roots = numbers::member_total(p, n, levels);
    column::put_line(text, 0, p as i64, n as u64, k as u64, roots);
    lines::put_classes(p, n, residues, levels, marks, text);
    Ok(bytes)
}

// The line of a refusal: its number and place. A text with fewer than 23 bytes is refused, and is not altered.
pub fn write_refusal(refusal: Refusal, text: &mut [u8]) -> Result<usize, Refusal>
    ensures answer { result ≡ refusal_written_of (length text.old) }
    ensures text { text.new
        ≡ filled (refusal_verdict (length text.old)) (refusal_line refusal) text.old }
{
    if text.len() < 23 {
        return Err(Refusal::BufferTooSmall(23));
    }
    column::put_column(text, 0, 11, refusal.number() as u64);
    column::put_column(text, 11, 11, refusal.place() as u64);
    text[22] = b'\n';
    Ok(23)
}

// The line of a row's first 32 numbers, in columns of 20; later bytes keep their content. It returns how many bytes it wrote.
pub fn write_row(row: &[u64], text: &mut [u8; 641]) -> usize
    ensures answer { result ≡ length (row_line (take 32 row.now)) }
    ensures text { text.new
        ≡ row_line (take 32 row.now) ++ drop (length (row_line (take 32 row.now))) text.old }
    ensures counts { (result ≤ length text.new) × (result ≡ length (take result text.new)) }
{
    row::put_row(&row[..row.len().min(32)], text)
}
