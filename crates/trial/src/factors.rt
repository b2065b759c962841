// Polynomials of higher degree as products of factors x^e + a·x^d.
use crate::modular::{Modulus, modulo, multiply_add};
use crate::random::draw;

// The kinds of products: consecutive factors, one factor again and again, or what is drawn.
#[derive(Clone, Copy)]
pub(crate) enum Product {
    // x − k for the factor of number k
    Consecutive,
    // x
    Zero,
    // x − 1
    One,
    // x − p
    Prime,
    // x^p − x
    Fermat,
    // x² − 1
    SquareLessOne,
    // x² − p
    SquareLessPrime,
    // x³ − 1
    CubeLessOne,
    // x^p − p
    PowerLessPrime,
    // x or x − 1, as drawn
    ZeroOrOne,
    // drawn factors of degree 1 to 3, by this seed
    Drawn(u32),
}

impl Product {
    // The 16 kinds by their numbers; a higher number is one more seed.
    pub(crate) fn numbered(number: u32) -> Product {
        match number {
            0 => Product::Consecutive,
            1 => Product::Zero,
            2 => Product::One,
            3 => Product::Prime,
            4 => Product::Fermat,
            5 => Product::SquareLessOne,
            6 => Product::SquareLessPrime,
            7 => Product::CubeLessOne,
            8 => Product::PowerLessPrime,
            9 => Product::ZeroOrOne,
            seed => Product::Drawn(seed),
        }
    }

    // The factor of number k in a product of this kind.
    pub(crate) fn factor(self, k: u32, x: &Modulus) -> Factor {
        let m = x.m;
        match self {
            Product::Consecutive => Factor::less(1, k, 0, m),
            Product::Zero => Factor::less(1, 0, 0, m),
            Product::One => Factor::less(1, 1, 0, m),
            Product::Prime => Factor::less(1, x.p, 0, m),
            Product::Fermat => Factor::less(x.p, 1, 1, m),
            Product::SquareLessOne => Factor::less(2, 1, 0, m),
            Product::SquareLessPrime => Factor::less(2, x.p, 0, m),
            Product::CubeLessOne => Factor::less(3, 1, 0, m),
            Product::PowerLessPrime => Factor::less(x.p, x.p, 0, m),
            Product::ZeroOrOne => Factor::less(1, draw(9, k, 0) % 2, 0, m),
            Product::Drawn(seed) => {
                let e = 1 + draw(seed, k, 1) % 3;
                Factor {
                    e,
                    d: modulo(draw(seed, k, 2), e),
                    a: modulo(draw(seed, k, 3), m),
                }
            }
        }
    }
}

// The factor x^e + a·x^d.
#[derive(Clone, Copy)]
pub(crate) struct Factor {
    pub(crate) e: u32,
    d: u32,
    a: u32,
}

impl Factor {
    // The factor a: the term x^65 is past the coefficients of a product.
    pub(crate) fn constant(a: u32) -> Factor {
        Factor { e: 65, d: 0, a }
    }

    // The factor x^e − a·x^d modulo m.
    fn less(e: u32, a: u32, d: u32, m: u32) -> Factor {
        let a = modulo(m.wrapping_sub(modulo(a, m)), m);
        Factor { e, d, a }
    }

    // The first 65 coefficients of g·(x^e + a·x^d) modulo m.
    pub(crate) fn times(self, g: &[u32], m: u32) -> [u32; 65] {
        let mut product = [0; 65];
        for (y, &high) in product.iter_mut().skip(self.e as usize).zip(g) {
            *y = high;
        }
        for (y, &low) in product.iter_mut().skip(self.d as usize).zip(g) {
            *y = multiply_add(low, self.a, *y, m);
        }
        product
    }
}
