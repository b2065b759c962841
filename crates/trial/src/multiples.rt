// Drawn multiples of a polynomial, which have its roots and others.
use crate::coefficients::Polynomial;
use crate::factors::{Factor, Product};
use crate::modular::{Modulus, modulo, power};

// The multiple by the digits of a drawn number of the polynomial with these coefficients: it times p^j, where j is at most n, and one in
// two times a factor too.
pub(crate) fn multiple(g: &[u32], number: u32, x: &Modulus) -> Polynomial {
    let j = modulo(number, x.n + 1);
    let scaled = Factor::constant(power(x.p, j)).times(g, x.m);
    let style = number / 16 % 64;
    if number / 1024 % 2 == 0 {
        return Polynomial::lifting(&scaled, style, g.len(), x.m);
    }
    let factor = Product::numbered(number / 2048 % 16).factor(number / 32768, x);
    let product = factor.times(&scaled, x.m);
    let c = g.len().saturating_add(factor.e as usize);
    Polynomial::lifting(&product, style, c, x.m)
}
