// D by trial of the coefficients.
use crate::library::Solved;
use crate::modular::modulo;
use crate::problem::Problem;

// Whether the number of classes is at most D and that of live ones at most 1 + n·D, or both are 1 where all coefficients are zero. D is
// the highest index of a coefficient that p does not divide after the division by p^s.
pub(crate) fn holds(problem: &Problem, s: &Solved) -> bool {
    let x = &problem.x;
    let k = s.solution.list.k;
    match problem.h().iter().rposition(|&a| modulo(a, x.p) != 0) {
        Some(d) => k <= d && s.live <= (x.n as u64).saturating_mul(d as u64).saturating_add(1),
        None => k == 1 && s.live == 1,
    }
}
