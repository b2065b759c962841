// The solver: the root classes of a polynomial modulo pⁿ, the test of one residue or of many, and the root counts at every precision.
#![tactic(auto)]

ghost use Rattle.std.specs.Prelude.{◌≡◌, length};
ghost use Rattle.solver.specs.Solve.{lists as lists_of, solved_of, lists_after, tested_of};
ghost use Rattle.solver.specs.Points.{tested_all_of, queries_after};
ghost use Rattle.solver.specs.Counts.{tabulated_of, counts_after};
ghost use Rattle.solver.specs.inner.UsablePolynomial.{polynomial_modulus};

use refusal::Refusal;

mod differences;
mod digits;
mod entry;
mod join;
mod lists;
mod mark;
mod points;
mod polynomial;
mod raise;
mod reduce;
mod solution;
mod sort;
mod start;
mod taylor;
mod tree;
mod valuation;
mod zero_counts;

pub use raise::raise_precision;

// Rules 2, 3, 4, 14 and 5: pⁿ, or the refusal.
fn check_polynomial(coefficients: &[i64], p: u32, n: u32) -> Result<u64, Refusal>
    ensures { result ≡ polynomial_modulus coefficients.now p n }
{
    if coefficients.is_empty() {
        return Err(Refusal::NoCoefficient);
    }
    if 65 < coefficients.len() {
        return Err(Refusal::TooManyCoefficients);
    }
    numbers::check_modulus(p, n)
}

// What the solver found: the number of classes, which are the first entries of the lists, the number of roots, and the number of live
// classes (02, 2.8).
#[derive(Clone, Copy, Debug, PartialEq, Eq)]
pub struct Found {
    pub classes: usize,
    pub roots: u64,
    pub live: u64,
}

// A list that is filled: the number of classes, which are the first entries of the lists, and the number of roots.
#[derive(Clone, Copy, Debug, PartialEq, Eq)]
pub struct Listed {
    pub classes: usize,
    pub roots: u64,
}

// The root classes of the polynomial with these coefficients, lowest degree first, modulo pⁿ: residues of least size, levels and marks of
// the shortest list go into the first slots of the three lists, rising by residue; later slots keep their content. Rules 2, 3, 4, 14, 5, 6
// and 11; a refusal alters nothing.
pub fn solve(
    coefficients: &[i64],
    p: u32,
    n: u32,
    residues: &mut [i32],
    levels: &mut [u8],
    marks: &mut [u8],
) -> Result<Found, Refusal>
    ensures answer { result ≡ solved_of coefficients.now p n
        (lists_of residues.old levels.old marks.old) }
    ensures lists { lists_of residues.new levels.new marks.new
        ≡ lists_after coefficients.now p n
        (lists_of residues.old levels.old marks.old) }
{
    let m = check_polynomial(coefficients, p, n)?;
    let row = reduce::reduced(coefficients, m);
    solution::solve_reduced(&row[..coefficients.len()], p, n, m, residues, levels, marks)
}

// Whether pⁿ divides the polynomial's value at the point. Rules 2, 3, 4, 14, 5 and 8.
pub fn is_root(coefficients: &[i64], p: u32, n: u32, point: u32) -> Result<bool, Refusal>
    ensures { result ≡ tested_of coefficients.now p n point }
{
    let m = check_polynomial(coefficients, p, n)?;
    let row = reduce::reduced(coefficients, m);
    points::test_reduced(&row[..coefficients.len()], m, point)
}

// A point and the place for its answer (02, 2.5): 1 for a root, 0 for no root, 8 for a point that is not below pⁿ.
#[repr(C)]
#[derive(Clone, Copy)]
pub struct Query {
    pub point: u32,
    pub answer: u32,
}

// The test at each point of a row: every record gets its answer, and the points stay as they are. Rules 2, 3, 4, 14 and 5; a refusal
// alters nothing.
pub fn test_points(
    coefficients: &[i64],
    p: u32,
    n: u32,
    queries: &mut [Query],
) -> Result<(), Refusal>
    ensures answer { result ≡ tested_all_of coefficients.now p n }
    ensures queries { queries.new ≡ queries_after coefficients.now p n queries.old }
{
    let m = check_polynomial(coefficients, p, n)?;
    let row = reduce::reduced(coefficients, m);
    let g = &row[..coefficients.len()];
    for query in queries.iter_mut() {
        query.answer = points::answer(g, m, query.point);
    }
    Ok(())
}

// The number of solutions at every precision (02, 2.1): N_0, …, N_n go into the first n + 1 slots, where N_j is the number of residues
// below p^j at which p^j divides the polynomial; later slots keep their content. Rules 2, 3, 4, 14, 5 and 11; a refusal alters nothing.
pub fn counts(coefficients: &[i64], p: u32, n: u32, counts: &mut [u64]) -> Result<(), Refusal>
    ensures answer { result ≡ tabulated_of coefficients.now p n (length counts.old) }
    ensures counts { counts.new ≡ counts_after coefficients.now p n counts.old }
{
    let m = check_polynomial(coefficients, p, n)?;
    let slots = n as usize + 1;
    if counts.len() < slots {
        return Err(Refusal::TooFewSlots(slots));
    }
    let row = reduce::reduced(coefficients, m);
    zero_counts::count_reduced(&row[..coefficients.len()], p, n, m, counts);
    Ok(())
}
