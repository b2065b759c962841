// Cases of stepping.
use crate::answer::{Answer, Said};
use crate::case::Case;
use crate::memory::same_numbers;

// The answers of so many calls, from a point.
pub(crate) fn steps(case: &Case) -> Answer {
    let k = case.call(3) as usize % 17;
    let mut residues = [77; 65];
    let mut levels = [77; 65];
    let mut marks = [77; 65];
    let mut answers = [77; 34];
    let stepped = stepping::step_through(
        case.f.all(),
        case.p(),
        case.n(),
        &mut residues,
        &mut levels,
        &mut marks,
        case.point(),
        &mut answers[..k],
    );
    let filled = if stepped.is_ok() { k } else { 0 };
    Answer {
        said: stepped.map(|_| Said::Numbers),
        same: same_numbers(&answers, filled, &case.expected),
    }
}
