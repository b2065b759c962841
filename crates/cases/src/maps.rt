// Cases of the root map and its count.
use crate::answer::{Answer, Said};
use crate::case::Case;
use crate::memory::same_bytes;

// The map of the classes.
pub(crate) fn map(case: &Case) -> Answer {
    let mut map = [77; 65536];
    let end = (case.point() as usize).min(65536);
    let mapped = rootmap::fill_map(
        case.p(),
        case.n(),
        case.lists.residues((case.before() + 1) / 2),
        case.lists.levels(case.before() / 2),
        &mut map[..end],
    );
    let filled = if mapped.is_ok() { end } else { 0 };
    Answer {
        said: mapped.map(|()| Said::Filled),
        same: same_bytes(&map, filled, &case.expected),
    }
}

fn count(map: &[u8], case: &Case) -> Answer {
    Answer::alone(rootmap::count_map(case.p(), case.n(), map).map(Said::Number))
}

// The count of a map of these bytes.
pub(crate) fn count_bytes(case: &Case) -> Answer {
    count(case.lists.marks(case.before()), case)
}

// The count of the map of 0/1.
pub(crate) fn count_filled(case: &Case) -> Answer {
    let mut map = [77; 65536];
    match rootmap::fill_map(case.p(), case.n(), &[0], &[1], &mut map) {
        Ok(()) => count(&map, case),
        Err(r) => Answer::alone(Err(r)),
    }
}
