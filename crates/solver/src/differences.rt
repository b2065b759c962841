// Finite differences of a polynomial modulo p: its values at 0, 1, 2, … by additions alone.
//
// The row at c has the value there, the value at c + 1 less it, and so on, as many as there are coefficients. An entry is below p, so 32
// bits hold it, and twice as many go into one vector instruction.
ghost use Rattle.std.specs.Prelude.{◌≡◌, ◌+◌, ◌-◌, ◌*◌, ◌%◌, ◌≤◌, ◌<◌, length, get_or};
ghost use Rattle.theory.specs.Polynomial.{value as value_of};
ghost use Rattle.theory.specs.inner.Overwritten.{Overwritten};
ghost use Rattle.solver.specs.inner.Table.{Below, Differences};

use crate::polynomial;

// a + b modulo p
fn plus(a: u32, b: u32, p: u32) -> u32
    requires { (a < p) × (b < p) × (p ≤ 65535) }
    ensures { result ≡ (a + b) % p }
{
    let s = a + b;
    if s < p { s } else { s - p }
}

// a − b modulo p
fn minus(a: u32, b: u32, p: u32) -> u32
    requires { (a < p) × (b < p) × (p ≤ 65535) }
    ensures { result ≡ (a + (p - 1) * b) % p }
{
    if a < b { a + p - b } else { a - b }
}

// The values at 0, 1, …, one for each entry.
fn values(g: &[u32], p: u64, row: &mut [u32])
    requires { (0 < p) × (p ≤ 65535) × (length row.old ≤ 65) }
    ensures { Overwritten (λ i. value_of g.now i % p) 0 (length row.old) row.old
        row.new }
{
    for (i, entry) in row.iter_mut().enumerate() {
        *entry = polynomial::value(g, i as u64, p) as u32;
    }
}

// From each entry after index k the entry before it is taken, the last first.
fn stage(row: &mut [u32], k: usize, p: u32)
    requires { (k < length row.old) × (p ≤ 65535) × Below p row.old }
    ensures { Overwritten (λ i. (get_or row.old i 0 + (p - 1) * get_or row.old (i - 1) 0) % p)
        (k + 1) (length row.old) row.old row.new }
{
    for i in (k + 1..row.len()).rev() {
        row[i] = minus(row[i], row[i - 1], p);
    }
}

// The row at 0: after k stages its first k + 1 entries stand.
pub(crate) fn first_row(g: &[u32], p: u64, row: &mut [u32])
    requires { (0 < p) × (p ≤ 65535) × (length row.old ≤ 65) }
    ensures { Differences p g.now 0 row.new }
{
    values(g, p, row);
    for k in 0..row.len() {
        stage(row, k, p as u32);
    }
}

// From the row at c to the one at c + 1: to each entry the next is added. The last entry stays.
pub(crate) fn advance(row: &mut [u32], p: u32)
    requires { (p ≤ 65535) × Below p row.old }
    ensures { Overwritten (λ i. (get_or row.old i 0 + get_or row.old (i + 1) 0) % p)
        0 (length row.old - 1) row.old row.new }
{
    for j in 1..row.len() {
        row[j - 1] = plus(row[j - 1], row[j], p);
    }
}
