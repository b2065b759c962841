// Cases of systems: each is a call on the system that the cases before have left.
use crate::answer::{Answer, Said};
use crate::case::Case;
use crate::memory::same_classes;
use refusal::Refusal;
use systems::System;

fn done(changed: Result<(), Refusal>) -> Answer {
    Answer::alone(changed.map(|()| Said::Done))
}

// Where it is refused, the system is not opened.
pub(crate) fn open(system: &mut System, case: &Case) -> Answer {
    let opened = System::open(case.p(), case.n());
    *system = opened.unwrap_or(System::unopened());
    done(opened.map(|_| ()))
}

// The tag is the call's first number.
pub(crate) fn add(system: &mut System, case: &Case) -> Answer {
    done(system.add(case.said.word(0), case.f.all()))
}

pub(crate) fn withdraw(system: &mut System, case: &Case) -> Answer {
    done(system.withdraw(case.said.word(0)))
}

// The common list.
pub(crate) fn fetch(system: &System, case: &Case) -> Answer {
    let mut residues = [77; 66];
    let mut levels = [77; 66];
    let fetched = system.fetch(&mut residues[..case.slots(0)], &mut levels[..case.slots(1)]);
    let k = fetched.map_or(0, |listed| listed.classes);
    Answer {
        said: fetched.map(|listed| Said::Classes(listed.classes, listed.roots)),
        same: same_classes(&residues, &levels, k, &case.expected),
    }
}
