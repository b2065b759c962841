// The answers that several operations give to C.
ghost use Rattle.std.specs.Prelude.{◌≡◌};
ghost use Rattle.capi.specs.Answers.{done_answer, list_answer};

use refusal::Refusal;
use solver::Listed;

// Of an operation with no value.
#[repr(C)]
#[derive(Clone, Copy)]
pub struct DoneAnswer {
    pub number: u32,
    pub place: usize,
}

impl From<Result<(), Refusal>> for DoneAnswer {
    ghost from_gives = { λ done answer. answer ≡ done_answer done };

    fn from(done: Result<(), Refusal>) -> DoneAnswer {
        match done {
            Ok(()) => DoneAnswer {
                number: 0,
                place: 0,
            },
            Err(r) => DoneAnswer {
                number: r.number(),
                place: r.place(),
            },
        }
    }
}

// Of an operation that fills lists.
#[repr(C)]
#[derive(Clone, Copy)]
pub struct ListAnswer {
    pub number: u32,
    pub place: usize,
    pub classes: usize,
    pub roots: u64,
}

impl From<Result<Listed, Refusal>> for ListAnswer {
    ghost from_gives = { λ listed answer. answer ≡ list_answer listed };

    fn from(listed: Result<Listed, Refusal>) -> ListAnswer {
        match listed {
            Ok(listed) => ListAnswer {
                number: 0,
                place: 0,
                classes: listed.classes,
                roots: listed.roots,
            },
            Err(r) => ListAnswer {
                number: r.number(),
                place: r.place(),
                classes: 0,
                roots: 0,
            },
        }
    }
}
