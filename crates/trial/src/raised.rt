// Lists raised to precision n, by trial of all residues: the solver's at a lower one, and drawn ones.
use crate::library::{Solution, Solved};
use crate::listed::List;
use crate::modular::{Modulus, modulo};
use crate::plain::Roots;
use crate::problem::Problem;
use crate::random::draw;
use crate::tally::{Kind, RAISED, Tally};
use crate::{entries, given, library};
use refusal::Refusal;

// The roots that are members of the given classes.
fn among(problem: &Problem, given: &List) -> Roots {
    let x = &problem.x;
    Roots::new(
        x.m,
        &|r| { problem.roots.contains(r) && given.memberships(x.p, r) != 0 },
    )
}

// A list raised from precision j.
fn compare_list(problem: &Problem, j: u32, given: &List, tally: &mut Tally) {
    let x = &problem.x;
    let wanted = among(problem, given);
    let Ok(s) = library::raise(problem.f(), j, x, given) else {
        tally.compare(Kind::RaisedRoots, false);
        return;
    };
    let misplaced = s.list.misplaced(x, &wanted);
    tally.compare(Kind::RaisedRoots, s.unused() && s.roots == wanted.count);
    tally.compare_many(Kind::RaisedMember, x.m as u64, misplaced as u64);
    entries::compare(problem, &wanted, &s, RAISED, tally);
}

// The solver's list at precision j, raised to n.
fn solved_and_raised(problem: &Problem, j: u32) -> Result<Solution, Refusal> {
    let x = &problem.x;
    let lower = library::solve(problem.f(), &Modulus::new(x.p, j))?;
    library::raise(problem.f(), j, x, &lower.solution.list)
}

// The solver's list at a precision up to n, and for every second polynomial a drawn one; `solved` is the solver's answer at n.
pub(crate) fn compare(problem: &Problem, solved: &Result<Solved, Refusal>, tally: &mut Tally) {
    let x = &problem.x;
    let seed = tally.seed();
    let j = modulo(seed, x.n) + 1;
    if let Ok(s) = solved {
        let raised = solved_and_raised(problem, j);
        tally.compare(Kind::Raised, raised == Ok(s.solution));
    }
    if draw(seed, j, 5) % 2 == 0 {
        return;
    }
    let t = modulo(draw(seed, j, 8), j + 1);
    let u = modulo(draw(seed, j, 9), t + 1);
    compare_list(problem, j, &given::drawn(seed, x.p, u, t), tally);
}
