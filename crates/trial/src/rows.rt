// Rows of calls on a system, against the plain model after each call.
use crate::coefficients::Polynomial;
use crate::held::Held;
use crate::modular::{Modulus, modulo};
use crate::plain::Roots;
use crate::problem::Problem;
use crate::random::draw;
use crate::tally::{Kind, Tally};
use crate::{entries, library, multiples};
use refusal::Refusal;
use systems::System;

// Tag number k of 32: 0 to 15, and these plus 2^32 − 2^16, so that some agree in the low half, others in the high one.
fn tag(k: u32) -> u32 {
    k % 2 * 4294901760 + k % 32 / 2
}

// A system and its model after the same calls.
#[derive(Drop)]
struct State {
    system: System,
    held: Held,
}

impl State {
    // Compares the common list.
    fn compare(&self, x: &Modulus, tally: &mut Tally) {
        let common = self.held.common(x.m);
        let Ok(s) = library::fetch(&self.system) else {
            tally.compare(Kind::CommonRoots, false);
            return;
        };
        let same = s.unused() && s.roots == common.count;
        let misplaced = s.list.misplaced(x, &common);
        let found = entries::find(x, &common);
        tally.compare(Kind::CommonRoots, same);
        tally.compare_many(Kind::CommonMember, x.m as u64, misplaced as u64);
        entries::compare_unmarked(
            &found,
            &s.list,
            Kind::CommonClasses,
            Kind::CommonEntry,
            tally,
        );
    }

    // Adds a polynomial under tag k.
    fn add(&mut self, k: u32, polynomial: &Polynomial, x: &Modulus, tally: &mut Tally) {
        let roots = Roots::find(polynomial.residues(), x.m);
        let added = self.system.add(tag(k), polynomial.coefficients());
        let answer = added.map_err(Refusal::number);
        tally.compare(Kind::Call, answer == self.held.add(k, &roots));
        self.compare(x, tally);
    }

    // Withdraws that under tag k.
    fn withdraw(&mut self, k: u32, x: &Modulus, tally: &mut Tally) {
        let answer = self.system.withdraw(tag(k)).map_err(Refusal::number);
        tally.compare(Kind::Call, answer == self.held.withdraw(k));
        self.compare(x, tally);
    }

    // A call by the digits of a drawn number, under one of so many tags: one in three is a withdrawal, the others add a multiple of the
    // polynomial with these coefficients, and one in so many a multiple of 1.
    fn call(&mut self, g: &[u32], number: u32, tags: u32, x: &Modulus, tally: &mut Tally) {
        let k = modulo(number, tags);
        if number / 32 % 3 == 0 {
            self.withdraw(k, x, tally);
            return;
        }
        let drawn = draw(number, 0, 10);
        let f = if modulo(number / 128, tags) == 0 {
            multiples::multiple(&[1], drawn, x)
        } else {
            multiples::multiple(g, drawn, x)
        };
        self.add(k, &f, x, tally);
    }
}

// A row for one in two polynomials with several classes, and for one in 32 others. With 32 tags there are times when sixteen are held.
// Each number is drawn from the one before, as draws from numbers in turn differ by a constant.
pub(crate) fn compare(problem: &Problem, classes: usize, tally: &mut Tally) {
    let x = &problem.x;
    let seed = tally.seed();
    let mut number = draw(draw(seed, 0, 11), 0, 11);
    let one_in = if classes < 2 { 32 } else { 2 };
    if modulo(number, one_in) != 0 {
        return;
    }
    let tags = if number / 32 % 64 == 0 { 32 } else { 5 };
    let opened = System::open(x.p, x.n);
    tally.compare(Kind::Call, opened.is_ok());
    let Ok(system) = opened else {
        return;
    };
    let mut state = State {
        system,
        held: Held::new(),
    };
    state.compare(x, tally);
    for _ in 0..4 * tags {
        number = draw(number, seed, 12);
        state.call(problem.g(), number, tags, x, tally);
    }
}
