// Live classes, counted as 02 defines them: the polynomial of each is made anew from the coefficients.
use crate::modular::{Class, Modulus, multiply_add, power};
use crate::problem::Problem;
use crate::{content, plain};

// Multiplies the polynomial by a + q·y and adds b, modulo m and up to its last coefficient.
fn multiply(h: &mut [u32], class: &Class, b: u32, m: u32) {
    let mut carried = b;
    for y in h.iter_mut() {
        let z = *y;
        *y = multiply_add(z, class.a, carried, m);
        carried = multiply_add(z, class.q, 0, m);
    }
}

// The first `end` coefficients of f(a + q·y) modulo m by Horner's rule, where g has the coefficients of f.
fn substituted(g: &[u32], class: &Class, end: usize, m: u32) -> [u32; 65] {
    let mut h = [0; 65];
    for &b in g.iter().rev() {
        multiply(&mut h[..end.min(65)], class, b, m);
    }
    h
}

// The live classes found so far.
#[derive(Drop)]
struct Live {
    // how many of them have been visited
    count: u64,
    // the highest level at which the index is the residue of one
    level: [Option<u32>; 512],
}

impl Live {
    // Whether the class of a at level t is among them, as long as none of a higher level with that residue is.
    fn has(&self, a: u32, t: u32) -> bool {
        self.level.get(a as usize).copied().flatten() == Some(t)
    }

    // Adds the class of a at level t.
    fn add(&mut self, a: u32, t: u32) {
        if let Some(level) = self.level.get_mut(a as usize) {
            *level = Some(t);
        }
    }

    // Visits a class, and adds those of the next level in it: one for each digit at which p divides its polynomial. If q is not 1, the
    // coefficients from index n on have the factor qⁿ, which is zero modulo m.
    fn visit(&mut self, g: &[u32], class: &Class, x: &Modulus) {
        self.count = self.count.saturating_add(1);
        let end = if class.q == 1 { g.len() } else { x.n as usize }.min(65);
        let f = substituted(g, class, end, x.m);
        let common = content::common_power(&f, x);
        if common == x.m {
            return;
        }
        let h = content::divided(&f, common);
        for d in 0..x.p {
            if plain::evaluate(&h[..end], d, x.p).value == 0 {
                let a = class.a.saturating_add(class.q.saturating_mul(d));
                self.add(a, class.t.saturating_add(1));
            }
        }
    }
}

// The number of live classes, visited level by level.
pub(crate) fn count(problem: &Problem) -> u64 {
    let x = &problem.x;
    let mut live = Live {
        count: 0,
        level: [None; 512],
    };
    live.add(0, 0);
    for t in 0..=x.n {
        let q = power(x.p, t);
        for a in 0..q {
            if live.has(a, t) {
                live.visit(problem.g(), &Class { a, t, q }, x);
            }
        }
    }
    live.count
}
