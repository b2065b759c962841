// Roots above simple digits, by trial of all residues. With q = p^s and h the coefficients divided by q, a digit d is simple if p divides
// h(d) and not h'(d).
use crate::library::{Solution, Solved};
use crate::modular::{Modulus, power, residue};
use crate::plain;
use crate::problem::Problem;
use crate::tally::{Kind, Tally};
use refusal::Refusal;

// How many of the residues that are d modulo p are roots.
fn roots_above(problem: &Problem, d: u32) -> usize {
    let members = problem.x.class(d as i64, 1).members(problem.x.m);
    members.filter(|&r| problem.roots.contains(r)).count()
}

// Whether z is one of the numbers from −m to m − 1 that are d modulo p.
fn is_above(z: i32, d: u32, x: &Modulus) -> bool {
    let z = z as i64;
    let m = x.m as i64;
    -m <= z && z < m && residue(z, x.p) == d
}

// Whether just one of the classes has members that are d modulo p, its level t has p^t·q = m, and its mark is 1.
fn has_one_lift(problem: &Problem, s: &Solution, d: u32) -> bool {
    let x = &problem.x;
    let classes = s.list.residues().iter().zip(s.list.levels());
    let mut only = None;
    for ((&z, &t), &mark) in classes.zip(s.marks()) {
        if t == 0 || is_above(z, d, x) {
            if only.is_some() {
                return false;
            }
            let fits = power(x.p, t as u32).saturating_mul(problem.q) == x.m;
            only = Some(fits && mark == 1);
        }
    }
    only == Some(true)
}

// Whether 0/0 is the only class and its mark is 1 or 2.
fn is_everything(s: &Solution) -> bool {
    matches!(s.list.residues(), [0])
        && matches!(s.list.levels(), [0])
        && matches!(s.marks(), [1 | 2])
}

// Whether p divides h at all digits.
fn vanishes_everywhere(problem: &Problem) -> bool {
    let p = problem.x.p;
    (0..p).all(|d| plain::evaluate(problem.h(), d, p).value == 0)
}

// The roots above each simple digit and, in a list, their class. If p·q = m and p divides h at all digits, every residue is a root and the
// list is 0/0 alone.
pub(crate) fn compare(problem: &Problem, solved: &Result<Solved, Refusal>, tally: &mut Tally) {
    let x = &problem.x;
    let q = problem.q;
    let exceptional = x.p.saturating_mul(q) == x.m && vanishes_everywhere(problem);
    for d in 0..x.p {
        let v = plain::evaluate(problem.h(), d, x.p);
        if v.value == 0 && v.derivative != 0 {
            tally.compare(Kind::Lifts, roots_above(problem, d) == q as usize);
            if let Ok(solved) = solved {
                let s = &solved.solution;
                let same = if exceptional {
                    is_everything(s)
                } else {
                    has_one_lift(problem, s, d)
                };
                tally.compare(Kind::Lifted, same);
            }
        }
    }
}
