// A problem, and what trial finds of it.
use crate::coefficients::Polynomial;
use crate::content;
use crate::modular::Modulus;
use crate::plain::Roots;

#[derive(Drop)]
pub(crate) struct Problem {
    polynomial: Polynomial,
    pub(crate) x: Modulus,
    // the power of p that is common to the coefficients, and the coefficients divided by it
    pub(crate) q: u32,
    divided: [u32; 65],
    pub(crate) roots: Roots,
}

impl Problem {
    pub(crate) fn new(polynomial: &Polynomial, x: &Modulus) -> Problem {
        let g = polynomial.residues();
        let q = content::common_power(g, x);
        Problem {
            polynomial: *polynomial,
            x: *x,
            q,
            divided: content::divided(&polynomial.g, q),
            roots: Roots::find(g, x.m),
        }
    }

    // The coefficients.
    pub(crate) fn f(&self) -> &[i64] {
        self.polynomial.coefficients()
    }

    // The coefficients modulo m.
    pub(crate) fn g(&self) -> &[u32] {
        self.polynomial.residues()
    }

    // The coefficients modulo m, divided by q.
    pub(crate) fn h(&self) -> &[u32] {
        &self.divided[..self.polynomial.len()]
    }
}
