// Polynomials in tables, the lowest degree first. A reader is lent the coefficients in use, so that no table is copied.
ghost use Rattle.std.specs.Prelude.{◌≡◌, ◌%◌, ◌≤◌, ◌<◌};
ghost use Rattle.theory.specs.Polynomial.{value as value_of, divided};
ghost use Rattle.theory.specs.Degree.{all_zero};
ghost use Rattle.solver.specs.inner.Table.{degree_modulo};

// The value at x modulo m, by Horner's rule.
pub(crate) fn value(g: &[u32], x: u64, m: u64) -> u64
    requires { (0 < m) × (m ≤ 4294967295) × (x < 4294967296) }
    ensures { result ≡ value_of g.now x % m }
{
    let mut v: u64 = 0;
    for a in g.iter().rev() {
        v = (*a as u64 + x * v) % m;
    }
    v
}

// Whether every coefficient is zero.
pub(crate) fn all_zero(g: &[u32]) -> bool
    ensures { result ≡ all_zero g.now }
{
    g.iter().all(|a| *a == 0)
}

// Divides every coefficient by q.
pub(crate) fn divide(g: &mut [u32], q: u32)
    requires { 0 < q }
    ensures { g.new ≡ divided q g.old }
{
    for a in g.iter_mut() {
        *a /= q;
    }
}

// The degree modulo p: the highest index whose coefficient p does not divide, and 0 where there is none.
pub(crate) fn degree(h: &[u32], p: u64) -> usize
    requires { 0 < p }
    ensures { result ≡ degree_modulo p h.now }
{
    h.iter().rposition(|a| *a as u64 % p != 0).unwrap_or(0)
}
