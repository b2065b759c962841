// The test of a residue, once a polynomial is reduced.
ghost use Rattle.std.specs.Prelude.{◌≡◌, ◌≤◌, ◌<◌};
ghost use Rattle.solver.specs.Points.{answer_number};
ghost use Rattle.solver.specs.inner.Points.{tested_reduced};

use crate::polynomial;
use refusal::Refusal;

// The test at a point, by the coefficients modulo m = pⁿ. Rule 8.
pub(crate) fn test_reduced(g: &[u32], m: u64, point: u32) -> Result<bool, Refusal>
    requires { (0 < m) × (m ≤ 4294967295) }
    ensures { result ≡ tested_reduced g.now m point }
{
    if m <= point as u64 {
        return Err(Refusal::Point);
    }
    Ok(polynomial::value(g, point as u64, m) == 0)
}

// The number of the test's answer.
pub(crate) fn answer(g: &[u32], m: u64, point: u32) -> u32
    requires { (0 < m) × (m ≤ 4294967295) }
    ensures { result ≡ answer_number (tested_reduced g.now m point) }
{
    match test_reduced(g, m, point) {
        Ok(root) => root as u32,
        Err(r) => r.number(),
    }
}
