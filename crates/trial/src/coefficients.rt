// Coefficients in all of the 64-bit range.
ghost use Rattle.std.specs.Prelude.{◌≤◌};

use crate::modular::{modulo, multiply_add, power, quotient, residue};
use crate::random::draw;

// Which of the numbers that are d modulo m, for d below m.
#[derive(Clone, Copy)]
enum Lift {
    // d
    Residue,
    // d − m
    Below,
    // the largest of 64 bits
    Largest,
    // the least of 64 bits
    Least,
}

impl Lift {
    // The lift of number way modulo 4.
    fn numbered(way: u32) -> Lift {
        match way % 4 {
            0 => Lift::Residue,
            1 => Lift::Below,
            2 => Lift::Largest,
            _ => Lift::Least,
        }
    }

    fn apply(self, d: u32, m: u32) -> i64 {
        let low = d as i64;
        let below = low - m as i64;
        match self {
            Lift::Residue => low,
            Lift::Below => below,
            Lift::Largest => i64::MAX - residue(i64::MAX - low, m) as i64,
            Lift::Least => i64::MIN + residue(below.wrapping_sub(i64::MIN), m) as i64,
        }
    }
}

// The coefficient of index i of the polynomial of number `seed`: an end of the range, a small or a large number.
fn drawn(seed: u32, i: u32) -> i64 {
    let large = draw(seed, i, 1) as i64 * 8388608 + draw(seed, i, 2) as i64;
    match draw(seed, i, 3) % 10 {
        0 => i64::MIN,
        1 => i64::MAX,
        2 => -1,
        3 => 0,
        4 => 1,
        5 => large,
        6 => !large,
        7 => draw(seed, i, 4) as i64,
        8 => i64::MAX - large,
        _ => i64::MIN + large,
    }
}

// A polynomial: its c coefficients, and the same modulo m.
#[derive(Clone, Copy)]
pub(crate) struct Polynomial {
    c: usize,
    f: [i64; 65],
    pub(crate) g: [u32; 65],
    ghost fits: { c ≤ 65 },
}

impl Polynomial {
    // The polynomial with c coefficients.
    fn new<F: Fn(u32) -> i64>(c: usize, m: u32, coefficient: &F) -> Polynomial
        requires { F.IsAlwaysCallable coefficient.now }
    {
        let c = c.min(65);
        let mut f = [0; 65];
        let mut g = [0; 65];
        for (i, (y, z)) in (0..65).zip(f[..c].iter_mut().zip(g.iter_mut())) {
            *y = coefficient(i);
            *z = residue(*y, m);
        }
        Polynomial { c, f, g }
    }

    // Its coefficients are the digits of a number to the base m, those at odd places less m.
    pub(crate) fn of_digits(number: u32, c: usize, m: u32) -> Polynomial {
        Polynomial::new(
            c,
            m,
            &|i| {
                let digit = modulo(quotient(number, power(m, i)), m);
                Lift::numbered(i % 2).apply(digit, m)
            },
        )
    }

    // Its coefficients are drawn for the polynomial of this number.
    pub(crate) fn drawn(seed: u32, c: usize, m: u32) -> Polynomial {
        Polynomial::new(c, m, &|i| drawn(seed, i))
    }

    // Its coefficients have these residues; the style says in which way each is lifted.
    pub(crate) fn lifting(g: &[u32; 65], style: u32, c: usize, m: u32) -> Polynomial {
        Polynomial::new(
            c,
            m,
            &|i| {
                let d = g.get(i as usize).copied().unwrap_or(0);
                Lift::numbered(multiply_add(style / 4, i, style, 4)).apply(d, m)
            },
        )
    }

    pub(crate) fn len(&self) -> usize
        ensures { result ≤ 65 }
    {
        self.c
    }

    pub(crate) fn coefficients(&self) -> &[i64] {
        &self.f[..self.c]
    }

    pub(crate) fn residues(&self) -> &[u32] {
        &self.g[..self.c]
    }
}
