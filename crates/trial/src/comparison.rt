// One polynomial: all comparisons.
use crate::coefficients::Polynomial;
use crate::library::Solved;
use crate::listed::List;
use crate::modular::Modulus;
use crate::plain::Roots;
use crate::problem::Problem;
use crate::tally::{Kind, SOLVED, Tally};
use crate::{bound, counts, entries, library, lifts, live, mapped, points, raised, rows};
use refusal::Refusal;

// Whether next is tried from r: from 0, from the point after each root, as in stepping, from every seventh, and from the last.
fn is_point(roots: &Roots, m: u32, r: u32) -> bool {
    r == 0 || r % 7 == 3 || roots.contains(r - 1) || r.saturating_add(1) == m
}

// Every residue from the last down: the test and, in a list, the classes that it is a member of, and next.
fn residues(problem: &Problem, solved: &Result<Solved, Refusal>, tally: &mut Tally) {
    let x = &problem.x;
    let mut least = None;
    for r in (0..x.m).rev() {
        let is_root = problem.roots.contains(r);
        if is_root {
            least = Some(r);
        }
        tally.compare(Kind::Test, library::test(problem.f(), x, r) == Ok(is_root));
        if let Ok(solved) = solved {
            let list = &solved.solution.list;
            let count = list.memberships(x.p, r);
            tally.compare(Kind::Member, (0 < count) == is_root);
            tally.compare(Kind::Shared, count < 2);
            if is_point(&problem.roots, x.m, r) {
                tally.compare(Kind::Next, library::next(list, x, r) == Ok(least));
            }
        }
    }
}

// The answer of the solver, and the map of its list.
fn compare_solved(problem: &Problem, solved: &Solved, tally: &mut Tally) {
    let s = &solved.solution;
    tally.compare(Kind::Unused, s.unused());
    tally.compare(Kind::Roots, s.roots == problem.roots.count);
    tally.compare(Kind::Live, solved.live == live::count(problem));
    tally.compare(Kind::Bound, bound::holds(problem, solved));
    entries::compare(problem, &problem.roots, s, SOLVED, tally);
    mapped::compare(problem, &s.list, tally);
}

// All comparisons for a polynomial modulo m. Where the solver refuses it, what does not need its list is compared.
pub(crate) fn run(polynomial: &Polynomial, x: &Modulus, tally: &mut Tally) {
    let problem = &Problem::new(polynomial, x);
    let solved = &library::solve(problem.f(), x);
    tally.begin(x.m);
    tally.compare(Kind::Accepted, solved.is_ok());
    if let Ok(solved) = solved {
        compare_solved(problem, solved, tally);
    }
    // Without a list next is asked of an empty one, and the row of systems is tried as for several classes.
    let (list, classes) = match solved {
        Ok(solved) => (solved.solution.list, solved.solution.list.k),
        Err(_) => (List::new(), 65),
    };
    tally.compare(Kind::Test, library::test(problem.f(), x, x.m).is_err());
    tally.compare(Kind::Next, library::next(&list, x, x.m).is_err());
    residues(problem, solved, tally);
    lifts::compare(problem, solved, tally);
    points::compare(problem, tally);
    counts::compare(problem, tally);
    raised::compare(problem, solved, tally);
    rows::compare(problem, classes, tally);
}
