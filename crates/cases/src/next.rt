// Cases of the next root.
use crate::answer::{Answer, Said};
use crate::case::Case;

pub(crate) fn next(case: &Case) -> Answer {
    let next = classes::next_root(
        case.p(),
        case.n(),
        case.lists.residues((case.before() + 1) / 2),
        case.lists.levels(case.before() / 2),
        case.point(),
    );
    Answer::alone(next.map(|root| match root {
        Some(r) => Said::Number(u64::from(r)),
        None => Said::No,
    }))
}
