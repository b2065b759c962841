// Eight points in one call, by value.
#![tactic(auto)]

ghost use Rattle.std.specs.Prelude.{◌≡◌};
ghost use Rattle.solver.specs.Points.{tested_all_of, queries_after};

use refusal::Refusal;
use solver::Query;

#[derive(Clone, Copy)]
pub struct Answers {
    pub tested: Result<(), Refusal>,
    pub queries: [Query; 8],
}

// `solver::test_points` on a copy of the records. Rules 2, 3, 4, 14 and 5; in a refusal the records are as given.
pub fn test_eight(coefficients: &[i64], p: u32, n: u32, given: [Query; 8]) -> Answers
    ensures tested { result.tested ≡ tested_all_of coefficients.now p n }
    ensures queries { result.queries ≡ queries_after coefficients.now p n given }
{
    let mut queries = given;
    let tested = solver::test_points(coefficients, p, n, &mut queries);
    Answers { tested, queries }
}
