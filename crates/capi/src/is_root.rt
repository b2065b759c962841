// The test of one residue for C.
ghost use Rattle.std.specs.Prelude.{◌≡◌};
ghost use Rattle.solver.specs.Solve.{tested_of};
ghost use Rattle.capi.specs.Answers.{test_answer};

use refusal::Refusal;

#[repr(C)]
#[derive(Clone, Copy)]
pub struct TestAnswer {
    pub number: u32,
    pub place: usize,
    // 1 for a root, 0 for none
    pub root: u32,
}

impl From<Result<bool, Refusal>> for TestAnswer {
    ghost from_gives = { λ tested answer. answer ≡ test_answer tested };

    fn from(tested: Result<bool, Refusal>) -> TestAnswer {
        match tested {
            Ok(root) => TestAnswer {
                number: 0,
                place: 0,
                root: u32::from(root),
            },
            Err(r) => TestAnswer {
                number: r.number(),
                place: r.place(),
                root: 0,
            },
        }
    }
}

// `solver::is_root`. Rules 2, 3, 4, 14, 5 and 8.
#[unsafe(no_mangle)]
pub extern "C" fn wimpleclay_is_root(coefficients: &[i64], p: u32, n: u32, point: u32) -> TestAnswer
    ensures { result ≡ test_answer (tested_of coefficients.now p n point) }
{
    solver::is_root(coefficients, p, n, point).into()
}
