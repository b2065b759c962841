// Stepping (01, "Rival lists and stepping"): the solver and then next, called as 01 describes.
#![tactic(auto)]

ghost use Rattle.std.specs.Prelude.{◌≡◌, map, ℕ, ◌^◌, length};
ghost use Rattle.theory.specs.Polynomial.{roots as roots_of};
ghost use Rattle.theory.specs.Stepping.{answers_from, following, claimed};
ghost use Rattle.refusal.specs.Rules.{filled};
ghost use Rattle.solver.specs.Solve.{lists as lists_of, solver_verdict, solved_of, lists_after};
ghost use Rattle.classes.specs.Next.{next_of, answer_of};
ghost use Rattle.classes.specs.inner.Usable.{UsableList};
ghost use Rattle.stepping.specs.Encoded.{encode};
ghost use Rattle.stepping.specs.inner.Reached.{Reached};

use refusal::Refusal;
use solver::Found;

// Solves, and then calls next once for each slot of `answers`, first from `start`: after a root r from r + 1, after none or a refusal from
// the same point. An answer is a number: a root itself, 2^32 for none, (number + 1) × 2^32 + place for a refusal. The lists are filled as
// the solver fills them. Where the solver refuses, nothing is altered.
pub fn step_through(
    coefficients: &[i64],
    p: u32,
    n: u32,
    residues: &mut [i32],
    levels: &mut [u8],
    marks: &mut [u8],
    start: u32,
    answers: &mut [u64],
) -> Result<Found, Refusal>
    ensures answer { result ≡ solved_of coefficients.now p n
        (lists_of residues.old levels.old marks.old) }
    ensures lists { lists_of residues.new levels.new marks.new
        ≡ lists_after coefficients.now p n
        (lists_of residues.old levels.old marks.old) }
    ensures answers { answers.new
        ≡ filled (solver_verdict coefficients.now p n
        (lists_of residues.old levels.old marks.old))
        (map encode (claimed (roots_of coefficients.now p n) p n start (length answers.old)))
        answers.old }
{
    let found = solver::solve(coefficients, p, n, residues, levels, marks)?;
    let k = found.classes;
    ask(p, n, &residues[..k], &levels[..k], start, answers);
    Ok(found)
}

// The calls of next.
fn ask(p: u32, n: u32, residues: &[i32], levels: &[u8], start: u32, answers: &mut [u64])
    requires { UsableList p n residues.now levels.now (p ^ n) }
    ensures { answers.new
        ≡ map encode (answers_from (λ (q : ℕ). answer_of (next_of p n residues.now levels.now q)) start
        (length answers.old)) }
{
    let mut point = start;
    for answer in answers.iter_mut() {
        let next = classes::next_root(p, n, residues, levels, point);
        (*answer, point) = step(next, point);
    }
}

// One answer as a number, and the following call's point.
fn step(next: Result<Option<u32>, Refusal>, point: u32) -> (u64, u32)
    requires { Reached next }
    ensures answer { result.0 ≡ encode (answer_of next) }
    ensures point { result.1 ≡ following (answer_of next) point }
{
    match next {
        Ok(Some(r)) => (r as u64, r + 1),
        Ok(None) => (4294967296, point),
        Err(r) => (
            (r.number() as u64 + 1) * 4294967296 + r.place() as u64,
            point,
        ),
    }
}
