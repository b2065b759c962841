// Whether lent memory has its expected content after a call. It holds 77 everywhere before.
use crate::rows::Row;

// Whether the first so many numbers are the expected ones, and the later ones 77.
pub(crate) fn same_numbers(numbers: &[u64], count: usize, expected: &Row) -> bool {
    numbers.iter().enumerate().all(|(i, x)| *x == if i < count { expected.item(i) } else { 77 })
}

// Whether the first so many bytes are those of the row, whose first number stands for those that it lacks, and the later ones 77.
pub(crate) fn same_bytes(bytes: &[u8], count: usize, expected: &Row) -> bool {
    bytes.iter().enumerate().all(|(i, b)| {
        let x = if count <= i {
            77
        } else if i < expected.count {
            expected.item(i)
        } else {
            expected.item(0)
        };
        u64::from(*b) == x
    })
}

// Whether the first so many bytes start the text, and the later ones are 77.
pub(crate) fn same_text(bytes: &[u8], count: usize, text: &[u8]) -> bool {
    let (written, unused) = bytes.split_at(count.min(bytes.len()));
    text.starts_with(written) && unused.iter().all(|b| *b == 77)
}

// Whether the first k slots have the expected classes, which stand after two numbers, and the later ones 77.
pub(crate) fn same_classes(
    residues: &[i32; 66],
    levels: &[u8; 66],
    k: usize,
    expected: &Row,
) -> bool {
    residues.iter().zip(levels).enumerate().all(|(i, (a, t))| {
        let (b, u) = if i < k {
            (expected.residue(2 * i + 2), expected.item(2 * i + 3))
        } else {
            (77, 77)
        };
        *a == b && u64::from(*t) == u
    })
}

// The same of classes with marks, which stand after them.
pub(crate) fn same_list(
    residues: &[i32; 66],
    levels: &[u8; 66],
    marks: &[u8; 66],
    k: usize,
    expected: &Row,
) -> bool {
    let first = k % 67 * 2 + 2;
    let same = marks.iter().enumerate().all(|(i, mark)| {
        u64::from(*mark) == if i < k { expected.item(first + i) } else { 77 }
    });
    same && same_classes(residues, levels, k, expected)
}
