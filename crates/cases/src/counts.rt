// Cases of the counts at every precision.
use crate::answer::{Answer, Said};
use crate::case::Case;
use crate::memory::same_numbers;

// N_0 to N_n, in 34 slots where no number is given.
pub(crate) fn count(case: &Case) -> Answer {
    let slots = if case.slots.count == 0 {
        34
    } else {
        (case.slots.item(0) % 35) as usize
    };
    let mut row = [77; 34];
    let counted = solver::counts(case.f.all(), case.p(), case.n(), &mut row[..slots]);
    let filled = if counted.is_ok() {
        case.n() as usize % 34 + 1
    } else {
        0
    };
    Answer {
        said: counted.map(|()| Said::Numbers),
        same: same_numbers(&row, filled, &case.expected),
    }
}
