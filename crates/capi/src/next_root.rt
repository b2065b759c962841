// The next root for C.
ghost use Rattle.std.specs.Prelude.{◌≡◌};
ghost use Rattle.classes.specs.Next.{next_of};
ghost use Rattle.capi.specs.Answers.{next_answer};

use refusal::Refusal;

#[repr(C)]
#[derive(Clone, Copy)]
pub struct NextAnswer {
    pub number: u32,
    pub place: usize,
    // 1 where there is a root at or after the point, 0 where there is none
    pub found: u32,
    pub root: u32,
}

impl From<Result<Option<u32>, Refusal>> for NextAnswer {
    ghost from_gives = { λ next answer. answer ≡ next_answer next };

    fn from(next: Result<Option<u32>, Refusal>) -> NextAnswer {
        match next {
            Ok(Some(root)) => NextAnswer {
                number: 0,
                place: 0,
                found: 1,
                root,
            },
            Ok(None) => NextAnswer {
                number: 0,
                place: 0,
                found: 0,
                root: 0,
            },
            Err(r) => NextAnswer {
                number: r.number(),
                place: r.place(),
                found: 0,
                root: 0,
            },
        }
    }
}

// `classes::next_root`. Rules 4, 14, 5, 6, 7 and 8.
#[unsafe(no_mangle)]
pub extern "C" fn wimpleclay_next_root(
    p: u32,
    n: u32,
    residues: &[i32],
    levels: &[u8],
    point: u32,
) -> NextAnswer
    ensures { result ≡ next_answer (next_of p n residues.now levels.now point) }
{
    classes::next_root(p, n, residues, levels, point).into()
}
