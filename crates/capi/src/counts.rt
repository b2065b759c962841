// The root counts at every precision for C.
ghost use Rattle.std.specs.Prelude.{◌≡◌, length};
ghost use Rattle.solver.specs.Counts.{tabulated_of, counts_after};
ghost use Rattle.capi.specs.Answers.{done_answer};

use crate::answers::DoneAnswer;

// `solver::counts`. Rules 2, 3, 4, 14, 5 and 11; a refusal alters nothing.
#[unsafe(no_mangle)]
pub extern "C" fn wimpleclay_counts(
    coefficients: &[i64],
    p: u32,
    n: u32,
    counts: &mut [u64],
) -> DoneAnswer
    ensures answer { result ≡ done_answer (tabulated_of coefficients.now p n (length counts.old)) }
    ensures counts { counts.new ≡ counts_after coefficients.now p n counts.old }
{
    solver::counts(coefficients, p, n, counts).into()
}
