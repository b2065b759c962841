// Valuations: how many times p divides a number.
ghost use Rattle.std.specs.Prelude.{◌≡◌, false, ◌^◌, ◌≤◌, ◌<◌};
ghost use Rattle.theory.specs.Degree.{valuation as valuation_of, least_valuation, all_zero};
ghost use Rattle.solver.specs.inner.Table.{lower_of};

use crate::polynomial;

// The valuation for p = 2 is the number of trailing zero bits.
fn valuation_two(x: u64) -> u64
    requires { 0 < x }
    ensures { result ≡ valuation_of 2 x }
{
    u64::trailing_zeros(x) as u64
}

// For any p: repeated division.
fn valuation_any(x: u64, p: u64) -> u64
    requires { (0 < x) × (2 ≤ p) }
    ensures { result ≡ valuation_of p x }
{
    let mut y = x;
    let mut v: u64 = 0;
    while y % p == 0 {
        y = y / p;
        v += 1;
    }
    v
}

fn valuation(x: u64, p: u64) -> u64
    requires { (0 < x) × (2 ≤ p) }
    ensures { result ≡ valuation_of p x }
{
    if p == 2 {
        return valuation_two(x);
    }
    valuation_any(x, p)
}

// The smaller of `best` and the valuation of x, where x is not 0.
pub(crate) fn lower(best: u64, x: u64, p: u64) -> u64
    requires { 2 ≤ p }
    ensures { result ≡ lower_of p best x }
{
    if x == 0 {
        return best;
    }
    valuation(x, p).min(best)
}

// The least valuation of the nonzero coefficients.
pub(crate) fn least_valuation(g: &[u32], p: u64) -> u64
    requires { (2 ≤ p) × (all_zero g.now ≡ false) }
    ensures { result ≡ least_valuation p g.now }
{
    let mut best: u64 = 64;
    for a in g {
        best = lower(best, *a as u64, p);
    }
    best
}

// The largest power of p that divides every coefficient, and 1 where all are zero.
pub(crate) fn common_power(g: &[u32], p: u64) -> u64
    requires { (2 ≤ p) × (p ≤ 65535) }
    ensures { result ≡ p ^ least_valuation p g.now }
{
    if polynomial::all_zero(g) {
        return 1;
    }
    let s = least_valuation(g, p);
    numbers::power(p as u32, s as u32)
}
