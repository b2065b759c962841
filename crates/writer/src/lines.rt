// The lines of a list of classes.
ghost use Rattle.std.specs.Prelude.{◌≡◌, ◌+◌, ◌*◌, ◌^◌, ◌≤◌, ◌<◌, length, get_or, pos};
ghost use Rattle.theory.specs.SignedClass.{signed_class};
ghost use Rattle.classes.specs.Rule7.{classes_of};
ghost use Rattle.classes.specs.inner.Usable.{UsableMarked};
ghost use Rattle.writer.specs.inner.Place.{laid};
ghost use Rattle.writer.specs.Output.{class_line, class_lines};

use crate::column;

// The line of class i, which is line i + 1 of the text.
fn put_class(
    p: u32,
    n: u32,
    residues: &[i32],
    levels: &[u8],
    marks: &[u8],
    i: usize,
    text: &mut [u8],
)
    requires { UsableMarked p n residues.now levels.now marks.now (p ^ n) × (i < length residues.now)
        × (45 * (i + 1) + 45 ≤ length text.old) }
    ensures { text.new
        ≡ laid (45 * (i + 1))
        (class_line p n (signed_class (get_or residues.now i (pos 0)) (get_or levels.now i 0))
        (get_or marks.now i 0))
        text.old }
{
    let t = levels[i];
    column::put_line(
        text,
        45 * (i + 1),
        residues[i] as i64,
        t as u64,
        numbers::member_count(p, n, t),
        marks[i] as u64,
    );
}

// A line a class, after the first line of the text.
pub(crate) fn put_classes(
    p: u32,
    n: u32,
    residues: &[i32],
    levels: &[u8],
    marks: &[u8],
    text: &mut [u8],
)
    requires { UsableMarked p n residues.now levels.now marks.now (p ^ n)
        × (45 * (length residues.now + 1) ≤ length text.old) }
    ensures { text.new
        ≡ laid 45 (class_lines p n (classes_of residues.now levels.now) marks.now) text.old }
{
    for i in 0..residues.len() {
        put_class(p, n, residues, levels, marks, i, text);
    }
}
