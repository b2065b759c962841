// 01's cases, executed. Standard input has a line for each, in four parts: the operation's letter and the numbers of slots, if not 65;
// after a ; the coefficients; after a | the call; after a : the expected answer. Call and answer are printed, and the last line counts the
// answers that differ. The letters: s solver, l the solver's number of live classes, e counts at every precision, u raise of a list (after
// the slots the lengths of the given lists, if not those of the call), t test, q test of eight points, n next, m map, c count of bytes, d
// count of the map of 0/1, w writer, r stepping, h simple digits; o opening of a system, and on the one that the cases before have left a
// adding, v withdrawal, f fetching. Any other letter is the writer's, and so is a byte above the letters.
#![tactic(auto)]

mod answer;
mod case;
mod counts;
mod list;
mod lists;
mod maps;
mod memory;
mod next;
mod operation;
mod points;
mod raising;
mod rows;
mod simple;
mod solving;
mod steps;
mod system;
mod writing;

use answer::Answer;
use case::Case;
use operation::Operation;
use rows::part;
use std::io;
use systems::System;

fn answer_to(case: &Case, system: &mut System) -> Answer {
    match case.operation {
        Operation::Solve => solving::solve(case, false),
        Operation::Live => solving::solve(case, true),
        Operation::Counts => counts::count(case),
        Operation::Raise => raising::raise(case),
        Operation::Test => solving::test(case),
        Operation::Points => points::test(case),
        Operation::Next => next::next(case),
        Operation::Map => maps::map(case),
        Operation::CountBytes => maps::count_bytes(case),
        Operation::CountFilled => maps::count_filled(case),
        Operation::Write | Operation::WritePairs => writing::write(case),
        Operation::Steps => steps::steps(case),
        Operation::Digits => simple::digits(case),
        Operation::Open => system::open(system, case),
        Operation::Add => system::add(system, case),
        Operation::Withdraw => system::withdraw(system, case),
        Operation::Fetch => system::fetch(system, case),
    }
}

// All lines, of which the first thousand are read. A case starts with a small letter; any other line is printed as it is.
fn run(rt: &impl Print, text: &[u8]) -> io::Result<()> {
    let mut system = System::unopened();
    let mut cases: u32 = 0;
    let mut differ: u32 = 0;
    let mut rest = text;
    for _ in 0..1000 {
        let Some(letter) = rest.first() else {
            break;
        };
        if *letter < b'a' {
            let (line, after) = part(rest, b'\n');
            rt.write_all(line)?;
            rest = after;
            continue;
        }
        let case = Case::read(*letter, text, rest);
        rest = case.after;
        let answer = answer_to(&case, &mut system);
        rt.write_all(case.printed)?;
        cases = cases.wrapping_add(1);
        if !answer.agrees(&case) {
            println!(rt; "the answer differs")?;
            differ = differ.wrapping_add(1);
        }
    }
    println!(rt; "{cases} cases, {differ} differ")
}

fn main(rt: HostRuntime) -> io::Result<()> {
    let mut text = [0; 65536];
    let n = program::read_full(&mut rt.reader(), &mut text)?;
    run(&rt, &text[..n])
}
