// Polynomials with drawn coefficients, among them the ends of the 64-bit range, and the same times a power of p.
use crate::coefficients::Polynomial;
use crate::comparison;
use crate::factors::Factor;
use crate::modular::{Modulus, power};
use crate::random::draw;
use crate::tally::Tally;

// One polynomial, every second one with 65 coefficients, and it times p^j, reduced and lifted again.
pub(crate) fn pair(seed: u32, j: u32, x: &Modulus, tally: &mut Tally) {
    let c = if seed % 2 == 0 {
        65
    } else {
        (1 + draw(seed, 0, 5) % 65) as usize
    };
    let f = Polynomial::drawn(seed, c, x.m);
    let product = Factor::constant(power(x.p, j)).times(f.residues(), x.m);
    comparison::run(&f, x, tally);
    comparison::run(&Polynomial::lifting(&product, seed, c, x.m), x, tally);
}
