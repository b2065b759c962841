// Cases of the solver and of the test.
use crate::answer::{Answer, Said};
use crate::case::Case;
use crate::memory::same_list;

// The solver's answer: the classes, or with `live` only the number of live ones.
pub(crate) fn solve(case: &Case, live: bool) -> Answer {
    let mut residues = [77; 66];
    let mut levels = [77; 66];
    let mut marks = [77; 66];
    let solved = solver::solve(
        case.f.all(),
        case.p(),
        case.n(),
        &mut residues[..case.slots(0)],
        &mut levels[..case.slots(1)],
        &mut marks[..case.slots(2)],
    );
    match solved {
        Ok(found) if live => Answer::alone(Ok(Said::Number(found.live))),
        Ok(found) => Answer {
            said: Ok(Said::Classes(found.classes, found.roots)),
            same: same_list(&residues, &levels, &marks, found.classes, &case.expected),
        },
        Err(r) => Answer {
            said: Err(r),
            same: same_list(&residues, &levels, &marks, 0, &case.expected),
        },
    }
}

pub(crate) fn test(case: &Case) -> Answer {
    let tested = solver::is_root(case.f.all(), case.p(), case.n(), case.point());
    Answer::alone(tested.map(|root| if root { Said::Yes } else { Said::No }))
}
