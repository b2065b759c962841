// Calls of the library. Where a call fills lists, every slot holds 77 before it.
use crate::listed::List;
use crate::modular::Modulus;
use refusal::Refusal;
use solver::Query;
use systems::System;

// Lists after a call that fills them, and the number of roots.
#[derive(Clone, Copy, PartialEq, Eq)]
pub(crate) struct Solution {
    pub(crate) list: List,
    pub(crate) marks: [u8; 65],
    pub(crate) roots: u64,
}

impl Solution {
    pub(crate) fn marks(&self) -> &[u8] {
        &self.marks[..self.list.k.min(65)]
    }

    // Whether the slots after the classes hold what they held before the call.
    pub(crate) fn unused(&self) -> bool {
        self.list.unused()
            && self.marks[self.list.k.min(65)..]
                .iter()
                .all(|&mark| mark == 77)
    }
}

// The solver's answer: with the number of live classes.
#[derive(Clone, Copy)]
pub(crate) struct Solved {
    pub(crate) solution: Solution,
    pub(crate) live: u64,
}

pub(crate) fn solve(f: &[i64], x: &Modulus) -> Result<Solved, Refusal> {
    let mut list = List::new();
    let mut marks = [77; 65];
    let found = solver::solve(
        f,
        x.p,
        x.n,
        &mut list.residues,
        &mut list.levels,
        &mut marks,
    )?;
    list.k = found.classes;
    Ok(Solved {
        solution: Solution {
            list,
            marks,
            roots: found.roots,
        },
        live: found.live,
    })
}

// The answer for the classes of a list at precision j, raised to n.
pub(crate) fn raise(f: &[i64], j: u32, x: &Modulus, given: &List) -> Result<Solution, Refusal> {
    let mut list = List::new();
    let mut marks = [77; 65];
    let found = solver::raise_precision(
        f,
        x.p,
        j,
        x.n,
        given.residues(),
        given.levels(),
        &mut list.residues,
        &mut list.levels,
        &mut marks,
    )?;
    list.k = found.classes;
    Ok(Solution {
        list,
        marks,
        roots: found.roots,
    })
}

// The row of counts after a call.
pub(crate) fn counts(f: &[i64], x: &Modulus) -> Result<[u64; 10], Refusal> {
    let mut row = [77; 10];
    solver::counts(f, x.p, x.n, &mut row)?;
    Ok(row)
}

pub(crate) fn test(f: &[i64], x: &Modulus, r: u32) -> Result<bool, Refusal> {
    solver::is_root(f, x.p, x.n, r)
}

// The records after a call for many points.
pub(crate) fn test_eight(f: &[i64], x: &Modulus, given: [Query; 8]) -> Result<[Query; 8], Refusal> {
    let answers = queries::test_eight(f, x.p, x.n, given);
    answers.tested?;
    Ok(answers.queries)
}

// The next root from a point in the classes.
pub(crate) fn next(list: &List, x: &Modulus, point: u32) -> Result<Option<u32>, Refusal> {
    classes::next_root(x.p, x.n, list.residues(), list.levels(), point)
}

pub(crate) fn fill(list: &List, x: &Modulus, map: &mut [u8]) -> Result<(), Refusal> {
    rootmap::fill_map(x.p, x.n, list.residues(), list.levels(), map)
}

// The count of a map's ones.
pub(crate) fn count(map: &[u8], x: &Modulus) -> Result<u64, Refusal> {
    rootmap::count_map(x.p, x.n, map)
}

// The common list and the number of its roots.
pub(crate) fn fetch(system: &System) -> Result<Solution, Refusal> {
    let mut list = List::new();
    let found = system.fetch(&mut list.residues, &mut list.levels)?;
    list.k = found.classes;
    Ok(Solution {
        list,
        marks: [77; 65],
        roots: found.roots,
    })
}
