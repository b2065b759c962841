// Counts at every precision, by trial of all residues below each power of p.
use crate::library;
use crate::modular::power;
use crate::plain::Roots;
use crate::problem::Problem;
use crate::tally::{Kind, Tally};

// The number of index j: N_j where j is at most n, and after it 77, which the slot held before the call.
fn number(problem: &Problem, j: u32) -> u64 {
    let x = &problem.x;
    if j < x.n {
        Roots::find(problem.g(), power(x.p, j)).count
    } else if j == x.n {
        problem.roots.count
    } else {
        77
    }
}

// The row of the polynomial, and the slot after it.
pub(crate) fn compare(problem: &Problem, tally: &mut Tally) {
    let x = &problem.x;
    let Ok(row) = library::counts(problem.f(), x) else {
        tally.compare(Kind::Counts, false);
        return;
    };
    for (j, &count) in (0..x.n + 2).zip(&row) {
        tally.compare(Kind::Counts, count == number(problem, j));
    }
}
