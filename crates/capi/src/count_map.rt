// The count of a root map for C.
ghost use Rattle.std.specs.Prelude.{◌≡◌};
ghost use Rattle.rootmap.specs.Map.{counted_of};
ghost use Rattle.capi.specs.Answers.{count_answer};

use refusal::Refusal;

#[repr(C)]
#[derive(Clone, Copy)]
pub struct CountAnswer {
    pub number: u32,
    pub place: usize,
    pub ones: u64,
}

impl From<Result<u64, Refusal>> for CountAnswer {
    ghost from_gives = { λ counted answer. answer ≡ count_answer counted };

    fn from(counted: Result<u64, Refusal>) -> CountAnswer {
        match counted {
            Ok(ones) => CountAnswer {
                number: 0,
                place: 0,
                ones,
            },
            Err(r) => CountAnswer {
                number: r.number(),
                place: r.place(),
                ones: 0,
            },
        }
    }
}

// `rootmap::count_map`. Rules 4, 14, 5, 9 and 10.
#[unsafe(no_mangle)]
pub extern "C" fn wimpleclay_count_map(p: u32, n: u32, map: &[u8]) -> CountAnswer
    ensures { result ≡ count_answer (counted_of p n map.now) }
{
    rootmap::count_map(p, n, map).into()
}
