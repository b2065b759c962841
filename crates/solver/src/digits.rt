// The zeros of a polynomial modulo p.
ghost use Rattle.std.specs.Prelude.{◌≡◌, true, ◌-◌, ◌*◌, ◌%◌, ◌≤◌, ◌<◌, length, take};
ghost use Rattle.theory.specs.Prime.{Prime};
ghost use Rattle.theory.specs.inner.Polynomial.{Degree};
ghost use Rattle.solver.specs.inner.Table.{Below, Residues, nonzero_modulo, zero_digits};

use crate::{differences, polynomial};

// The coefficients modulo p, as many as g has entries.
fn reduce(h: &[u32], p: u64, g: &mut [u32])
    requires { (0 < p) × (length g.old ≤ length h.now) }
    ensures { Residues p g.new h.now }
{
    for i in 0..g.len() {
        g[i] = (h[i] as u64 % p) as u32;
    }
}

// The inverse of a modulo p. Each step has x·a ≡ d; as p = (p / d)·d + p % d, −(p / d)·x·a ≡ p % d.
fn inverse(a: u64, p: u64) -> u64
    requires { (0 < a) × (a < p) × Prime p × (p ≤ 65535) }
    ensures { (result < p) × (result * a % p ≡ 1) }
{
    let mut d = a;
    let mut x: u64 = 1;
    while 1 < d {
        x = (p / d) * ((p - 1) * x % p) % p;
        d = p % d;
    }
    x
}

// The one digit at which a polynomial of degree 1 modulo p vanishes.
fn linear(g: &[u32], p: u64, zeros: &mut [u16]) -> usize
    requires { (length g.now ≡ 2) × Prime p × (p ≤ 65535) × Below p g.now × Degree p g.now 1 × (64 ≤ length zeros.old) }
    ensures { (result ≤ 64) × (take result zeros.new ≡ zero_digits p g.now) }
{
    zeros[0] = ((p - g[0] as u64) * inverse(g[1] as u64, p) % p) as u16;
    1
}

// The digits at which a polynomial vanishes whose degree modulo p is that of its last coefficient, rising: at most 64.
fn search(g: &[u32], p: u64, zeros: &mut [u16]) -> usize
    requires { (length g.now ≤ 65) × Prime p × (p ≤ 65535) × Degree p g.now (length g.now - 1) × (64 ≤ length zeros.old) }
    ensures { (result ≤ 64) × (take result zeros.new ≡ zero_digits p g.now) }
{
    let mut count: usize = 0;
    for c in 0..p {
        if polynomial::value(g, c, p) == 0 {
            zeros[count] = c as u16;
            count += 1;
        }
    }
    count
}

// The same by differences, which take one addition a coefficient and digit, and no division.
fn search_by_differences(g: &[u32], p: u64, zeros: &mut [u16]) -> usize
    requires { (0 < length g.now) × (length g.now ≤ 65) × Prime p × (p ≤ 65535) × Degree p g.now (length g.now - 1)
        × (64 ≤ length zeros.old) }
    ensures { (result ≤ 64) × (take result zeros.new ≡ zero_digits p g.now) }
{
    let mut table = [0u32; 65];
    let len = g.len();
    differences::first_row(g, p, &mut table[..len]);
    let mut count: usize = 0;
    for c in 0..p {
        if table[0] == 0 {
            zeros[count] = c as u16;
            count += 1;
        }
        differences::advance(&mut table[..len], p as u32);
    }
    count
}

// The same by the cheapest way: where there are few digits, the first row of differences costs more than it saves.
fn by_degree(g: &[u32], p: u64, zeros: &mut [u16]) -> usize
    requires { (0 < length g.now) × (length g.now ≤ 65) × Prime p × (p ≤ 65535) × Below p g.now
        × Degree p g.now (length g.now - 1) × (64 ≤ length zeros.old) }
    ensures { (result ≤ 64) × (take result zeros.new ≡ zero_digits p g.now) }
{
    let len = g.len();
    if len == 1 {
        return 0;
    }
    if len == 2 {
        return linear(g, p, zeros);
    }
    if p <= 2 * len as u64 {
        return search(g, p, zeros);
    }
    search_by_differences(g, p, zeros)
}

// The digits at which h vanishes modulo p, rising, into the first entries of `zeros`; their number.
pub(crate) fn zero_digits(h: &[u32], p: u64, zeros: &mut [u16]) -> usize
    requires { (length h.now ≤ 65) × Prime p × (p ≤ 65535) × (nonzero_modulo p h.now ≡ true) × (64 ≤ length zeros.old) }
    ensures { (result ≤ 64) × (take result zeros.new ≡ zero_digits p h.now) }
{
    let len = polynomial::degree(h, p) + 1;
    let mut g = [0u32; 65];
    reduce(h, p, &mut g[..len]);
    by_degree(&g[..len], p, zeros)
}
