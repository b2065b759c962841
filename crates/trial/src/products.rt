// Products of factors, times a power of p, to degree 64.
use crate::coefficients::Polynomial;
use crate::comparison;
use crate::factors::Product;
use crate::modular::{Modulus, power};
use crate::tally::Tally;

// With how many coefficients the product of k factors is tried, if it is: the first eight are, and every eighth, these with zeros at the
// top.
fn coefficients(degree: u32, k: u32) -> Option<usize> {
    if k % 8 == 0 {
        Some(65)
    } else if k < 8 {
        Some(degree as usize + 1)
    } else {
        None
    }
}

// The products of 1, 2, 3, … factors of the kind of this number, times p^j.
pub(crate) fn all(number: u32, j: u32, x: &Modulus, tally: &mut Tally) {
    let product = Product::numbered(number);
    let mut g = [0; 65];
    g[0] = power(x.p, j);
    let mut degree = 0u32;
    for k in 1..=64 {
        let factor = product.factor(k - 1, x);
        degree = degree.saturating_add(factor.e);
        if 64 < degree {
            return;
        }
        g = factor.times(&g, x.m);
        if let Some(c) = coefficients(degree, k) {
            let style = number.saturating_add(k);
            comparison::run(&Polynomial::lifting(&g, style, c, x.m), x, tally);
        }
    }
}
