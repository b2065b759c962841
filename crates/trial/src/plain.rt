// Plain evaluation by Horner's rule.
use crate::modular::multiply_add;

// The values of a polynomial and of its derivative.
#[derive(Clone, Copy)]
pub(crate) struct Value {
    pub(crate) value: u32,
    pub(crate) derivative: u32,
}

// The values at r of the polynomial with these coefficients, modulo m.
pub(crate) fn evaluate(g: &[u32], r: u32, m: u32) -> Value {
    let mut value = 0;
    let mut derivative = 0;
    for &a in g.iter().rev() {
        derivative = multiply_add(derivative, r, value, m);
        value = multiply_add(value, r, a, m);
    }
    Value { value, derivative }
}

// Residues below 512: whether each is among them, and their number.
#[derive(Clone, Copy)]
pub(crate) struct Roots {
    pub(crate) at: [bool; 512],
    pub(crate) count: u64,
}

impl Roots {
    // The residues below m that are to be among them.
    pub(crate) fn new<F: Fn(u32) -> bool>(m: u32, is_root: &F) -> Roots
        requires { F.IsAlwaysCallable is_root.now }
    {
        let mut at = [false; 512];
        for (r, is) in (0..m).zip(at.iter_mut()) {
            *is = is_root(r);
        }
        let count = at.iter().filter(|&&is| is).count() as u64;
        Roots { at, count }
    }

    // The roots modulo m of the polynomial with these coefficients.
    pub(crate) fn find(g: &[u32], m: u32) -> Roots {
        Roots::new(m, &|r| evaluate(g, r, m).value == 0)
    }

    pub(crate) fn contains(&self, r: u32) -> bool {
        self.at.get(r as usize).copied().unwrap_or(false)
    }
}
