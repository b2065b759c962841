// All polynomials with few coefficients: every digit below pⁿ at every place.
use crate::coefficients::Polynomial;
use crate::comparison;
use crate::modular::{Modulus, power};
use crate::tally::Tally;

// All polynomials with c coefficients.
pub(crate) fn all(x: &Modulus, c: u32, tally: &mut Tally) {
    for number in 0..power(x.m, c) {
        let f = Polynomial::of_digits(number, c as usize, x.m);
        comparison::run(&f, x, tally);
    }
}
