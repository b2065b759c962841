// The text reader for C.
ghost use Rattle.std.specs.Prelude.{◌≡◌, length};
ghost use Rattle.text.specs.Form.{problem_of};
ghost use Rattle.capi.specs.Answers.{read_answer};
ghost use Rattle.capi.specs.Row.{row_checked, row_after};

use refusal::Refusal;
use text::Problem;

#[repr(C)]
#[derive(Clone, Copy)]
pub struct ReadAnswer {
    pub number: u32,
    pub place: usize,
    pub p: u32,
    pub n: u32,
    pub count: usize,
}

impl From<Result<Problem, Refusal>> for ReadAnswer {
    ghost from_gives = { λ read answer. answer ≡ read_answer read };

    fn from(read: Result<Problem, Refusal>) -> ReadAnswer {
        match read {
            Ok(problem) => ReadAnswer {
                number: 0,
                place: 0,
                p: problem.p,
                n: problem.n,
                count: problem.count,
            },
            Err(r) => ReadAnswer {
                number: r.number(),
                place: r.place(),
                p: 0,
                n: 0,
                count: 0,
            },
        }
    }
}

// The problem of the text, whose row goes into the first slots of the lent row.
fn read_into(text: &[u8], coefficients: &mut [i64]) -> Result<Problem, Refusal>
    ensures read { result ≡ row_checked (problem_of text.now) (length coefficients.old) }
    ensures coefficients { coefficients.new
        ≡ row_after (row_checked (problem_of text.now) (length coefficients.old)) coefficients.old }
{
    let problem = text::read_problem(text)?;
    if coefficients.len() < 65 {
        return Err(Refusal::TooFewSlots(65));
    }
    coefficients[..65].copy_from_slice(&problem.coefficients);
    Ok(problem)
}

// `text::read_problem`, whose row of 65 coefficients goes into the first slots of the lent row; later slots keep their content.
// Rules 1, 2 and 3, then 11 where the lent row has fewer than 65 slots; a refusal alters nothing.
#[unsafe(no_mangle)]
pub extern "C" fn wimpleclay_read_problem(text: &[u8], coefficients: &mut [i64]) -> ReadAnswer
    ensures answer { result ≡ read_answer (row_checked (problem_of text.now) (length coefficients.old)) }
    ensures coefficients { coefficients.new
        ≡ row_after (row_checked (problem_of text.now) (length coefficients.old)) coefficients.old }
{
    read_into(text, coefficients).into()
}
