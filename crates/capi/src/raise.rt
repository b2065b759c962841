// Raising the precision of a list for C.
ghost use Rattle.std.specs.Prelude.{◌≡◌};
ghost use Rattle.solver.specs.Solve.{lists as lists_of};
ghost use Rattle.solver.specs.Raise.{raised_of, raised_lists};
ghost use Rattle.capi.specs.Answers.{list_answer};

use crate::answers::ListAnswer;

// `solver::raise_precision`. Rules 2, 3, 4, 14, 5 for n, 5 for m, 17, 6 for the given lists, 6 for those to be filled, 7 and 11; a refusal
// alters nothing.
#[unsafe(no_mangle)]
pub extern "C" fn wimpleclay_raise(
    coefficients: &[i64],
    p: u32,
    n: u32,
    m: u32,
    given_residues: &[i32],
    given_levels: &[u8],
    residues: &mut [i32],
    levels: &mut [u8],
    marks: &mut [u8],
) -> ListAnswer
    ensures answer { result ≡ list_answer (raised_of coefficients.now p n m given_residues.now
        given_levels.now (lists_of residues.old levels.old marks.old)) }
    ensures lists { lists_of residues.new levels.new marks.new
        ≡ raised_lists coefficients.now p n m given_residues.now given_levels.now
        (lists_of residues.old levels.old marks.old) }
{
    let raised = solver::raise_precision(
        coefficients,
        p,
        n,
        m,
        given_residues,
        given_levels,
        residues,
        levels,
        marks,
    );
    raised.into()
}
