// The solver for C.
ghost use Rattle.std.specs.Prelude.{◌≡◌};
ghost use Rattle.solver.specs.Solve.{lists as lists_of, solved_of, lists_after};
ghost use Rattle.capi.specs.Answers.{solve_answer};

use refusal::Refusal;
use solver::Found;

#[repr(C)]
#[derive(Clone, Copy)]
pub struct SolveAnswer {
    pub number: u32,
    pub place: usize,
    pub classes: usize,
    pub roots: u64,
    pub live: u64,
}

impl From<Result<Found, Refusal>> for SolveAnswer {
    ghost from_gives = { λ solved answer. answer ≡ solve_answer solved };

    fn from(solved: Result<Found, Refusal>) -> SolveAnswer {
        match solved {
            Ok(found) => SolveAnswer {
                number: 0,
                place: 0,
                classes: found.classes,
                roots: found.roots,
                live: found.live,
            },
            Err(r) => SolveAnswer {
                number: r.number(),
                place: r.place(),
                classes: 0,
                roots: 0,
                live: 0,
            },
        }
    }
}

// `solver::solve`. Rules 2, 3, 4, 14, 5, 6 and 11; a refusal alters nothing.
#[unsafe(no_mangle)]
pub extern "C" fn wimpleclay_solve(
    coefficients: &[i64],
    p: u32,
    n: u32,
    residues: &mut [i32],
    levels: &mut [u8],
    marks: &mut [u8],
) -> SolveAnswer
    ensures answer { result ≡ solve_answer (solved_of coefficients.now p n
        (lists_of residues.old levels.old marks.old)) }
    ensures lists { lists_of residues.new levels.new marks.new
        ≡ lists_after coefficients.now p n
        (lists_of residues.old levels.old marks.old) }
{
    solver::solve(coefficients, p, n, residues, levels, marks).into()
}
