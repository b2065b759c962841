// Cases of lists raised to a higher precision.
use crate::answer::{Answer, Said};
use crate::case::Case;
use crate::memory::same_list;

// How many entries of a given list are lent: the number of slots of index i, or where there is none so many.
fn lent(case: &Case, i: usize, all: usize) -> usize {
    if i < case.slots.count {
        (case.slots.item(i) % 67) as usize
    } else {
        all
    }
}

// The given classes raised from n to m, the number after n.
pub(crate) fn raise(case: &Case) -> Answer {
    let mut residues = [77; 66];
    let mut levels = [77; 66];
    let mut marks = [77; 66];
    let raised = solver::raise_precision(
        case.f.all(),
        case.p(),
        case.n(),
        case.point(),
        case.lists.residues(lent(case, 3, (case.before() + 1) / 2)),
        case.lists.levels(lent(case, 4, case.before() / 2)),
        &mut residues[..case.slots(0)],
        &mut levels[..case.slots(1)],
        &mut marks[..case.slots(2)],
    );
    let k = raised.map_or(0, |listed| listed.classes);
    Answer {
        said: raised.map(|listed| Said::Classes(listed.classes, listed.roots)),
        same: same_list(&residues, &levels, &marks, k, &case.expected),
    }
}
