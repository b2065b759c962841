// Cases of the text writer.
use crate::answer::{Answer, Said};
use crate::case::Case;
use crate::memory::same_text;

// The text of the classes. What is to be written stands in the input after the case.
pub(crate) fn write(case: &Case) -> Answer {
    let mut out = [77; 65536];
    let end = (case.point() as usize).min(65536);
    let written = writer::write_classes(
        case.p(),
        case.n(),
        case.lists.residues((case.before() + 2) / 3),
        case.lists.levels((case.before() + 1) / 3),
        case.lists.marks(case.before() / 3),
        &mut out[..end],
    );
    Answer {
        said: written.map(|bytes| Said::Number(bytes as u64)),
        same: same_text(&out, written.unwrap_or(0), case.written),
    }
}
