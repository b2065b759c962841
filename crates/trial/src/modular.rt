// Arithmetic on numbers, with an answer for every argument.
ghost use Rattle.std.specs.Prelude.{◌≤◌};

use std::iter::StepBy;
use std::ops::Range;

// m = pⁿ
#[derive(Clone, Copy)]
pub(crate) struct Modulus {
    pub(crate) p: u32,
    pub(crate) n: u32,
    pub(crate) m: u32,
    ghost small_p: { p ≤ 512 },
    ghost small_n: { n ≤ 9 },
    ghost small_m: { m ≤ 512 },
}

impl Modulus {
    // The bounds are above all that is tried.
    pub(crate) fn new(p: u32, n: u32) -> Modulus {
        Modulus {
            p: p.min(512),
            n: n.min(9),
            m: power(p, n).min(512),
        }
    }

    // The class of z at level t.
    pub(crate) fn class(&self, z: i64, t: u32) -> Class {
        let q = power(self.p, t);
        Class {
            a: residue(z, q),
            t,
            q,
        }
    }
}

// The numbers that are a modulo q = p^t.
#[derive(Clone, Copy)]
pub(crate) struct Class {
    pub(crate) a: u32,
    pub(crate) t: u32,
    pub(crate) q: u32,
}

impl Class {
    // Its members below m.
    pub(crate) fn members(&self, m: u32) -> StepBy<Range<u32>> {
        (self.a..m).step_by(self.q.max(1) as usize)
    }
}

// x modulo m, and 0 for m = 0.
pub(crate) fn residue(x: i64, m: u32) -> u32 {
    if m == 0 {
        return 0;
    }
    x.rem_euclid(m as i64) as u32
}

// a modulo m, and 0 for m = 0.
pub(crate) fn modulo(a: u32, m: u32) -> u32
    ensures { result ≤ m }
{
    a.checked_rem(m).unwrap_or(0)
}

// a div b, and 0 for b = 0.
pub(crate) fn quotient(a: u32, b: u32) -> u32 {
    a.checked_div(b).unwrap_or(0)
}

// a·b + c modulo m, and 0 for m = 0.
pub(crate) fn multiply_add(a: u32, b: u32, c: u32, m: u32) -> u32 {
    if m == 0 {
        return 0;
    }
    ((a as u64 * b as u64 + c as u64) % m as u64) as u32
}

// pⁿ where it is below 2^32.
pub(crate) fn power(p: u32, n: u32) -> u32 {
    p.saturating_pow(n)
}

// Whether z is of least size modulo q: −q < 2z ≤ q.
pub(crate) fn is_least(z: i32, q: u32) -> bool {
    let twice = 2 * z as i64;
    -(q as i64) < twice && twice <= q as i64
}
