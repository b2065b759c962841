// The power of p that is common to the coefficients, by trial of all powers.
use crate::modular::{Modulus, modulo, quotient};

// p^s, where p^(s + 1) is the least power of p that does not divide every coefficient; pⁿ where all coefficients are zero.
pub(crate) fn common_power(g: &[u32], x: &Modulus) -> u32 {
    let mut q = 1;
    for _ in 0..x.n {
        let next = x.p.saturating_mul(q);
        if g.iter().any(|&a| modulo(a, next) != 0) {
            return q;
        }
        q = next;
    }
    x.m
}

// Every coefficient divided by q.
pub(crate) fn divided(g: &[u32; 65], q: u32) -> [u32; 65] {
    g.map(|a| quotient(a, q))
}
