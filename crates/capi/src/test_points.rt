// The test of many residues for C.
ghost use Rattle.std.specs.Prelude.{◌≡◌};
ghost use Rattle.solver.specs.Points.{tested_all_of, queries_after};
ghost use Rattle.capi.specs.Answers.{done_answer};

use crate::answers::DoneAnswer;
use solver::Query;

// `solver::test_points`. Rules 2, 3, 4, 14 and 5; a refusal alters nothing.
#[unsafe(no_mangle)]
pub extern "C" fn wimpleclay_test_points(
    coefficients: &[i64],
    p: u32,
    n: u32,
    queries: &mut [Query],
) -> DoneAnswer
    ensures answer { result ≡ done_answer (tested_all_of coefficients.now p n) }
    ensures queries { queries.new ≡ queries_after coefficients.now p n queries.old }
{
    solver::test_points(coefficients, p, n, queries).into()
}
