// Marks from the derivative.
ghost use Rattle.std.specs.Prelude.{◌≡◌, map, ◌++◌, ◌-◌, ◌/◌, ◌≤◌, ◌<◌, length, drop};
ghost use Rattle.theory.specs.Polynomial.{divided, derivative as derivative_of};
ghost use Rattle.theory.specs.Degree.{primitive};
ghost use Rattle.solver.specs.inner.Table.{Residues};
ghost use Rattle.solver.specs.inner.Marks.{mark_at, mark_of_digits, mark_from};
ghost use Rattle.solver.specs.inner.Entry.{class_of};

use crate::entry::Entry;
use crate::{polynomial, valuation};

// The derivative of f/q modulo p, one coefficient fewer.
fn derivative(f: &[u32], q: u64, p: u64, d: &mut [u32])
    requires { (length f.now ≤ 65) × (length d.old ≡ length f.now - 1) × (0 < q) × (0 < p) × (p ≤ 65535) }
    ensures { Residues p d.new (derivative_of (divided q f.now)) }
{
    for i in 0..d.len() {
        let a = f[i + 1] as u64 / q;
        d[i] = ((i as u64 + 1) * (a % p) % p) as u32;
    }
}

// The mark at a from the derivative d modulo p: 1 if p does not divide its value, otherwise 0.
fn mark_at(d: &[u32], a: u64, p: u64) -> u8
    requires { (a < p) × (p ≤ 65535) }
    ensures { result ≡ mark_at p d.now a }
{
    (polynomial::value(d, a, p) != 0) as u8
}

// The mark of everything, by the values at the p digits. Where d is not zero, everything is a listed class only for p up to 64.
fn mark_of_digits(d: &[u32], p: u64) -> u8
    requires { (0 < p) × (p ≤ 65535) }
    ensures { result ≡ mark_of_digits p d.now }
{
    if polynomial::all_zero(d) {
        return 0;
    }
    let first = mark_at(d, 0, p);
    if (1..p).any(|c| mark_at(d, c, p) != first) {
        return 2;
    }
    first
}

// The mark of an entry's class.
fn mark(d: &[u32], entry: Entry, p: u64) -> u8
    requires { (0 < p) × (p ≤ 65535) }
    ensures { result ≡ mark_from p d.now (class_of entry) }
{
    if entry.level == 0 {
        return mark_of_digits(d, p);
    }
    mark_at(d, numbers::reduce(entry.residue as i64, p), p)
}

// The marks of the entries' classes, from the coefficients modulo pⁿ.
pub(crate) fn write_marks(f: &[u32], p: u64, entries: &[Entry], marks: &mut [u8])
    requires { (0 < length f.now) × (length f.now ≤ 65) × (2 ≤ p) × (p ≤ 65535) × (length entries.now ≤ length marks.old) }
    ensures { marks.new
        ≡ map (mark_from p (derivative_of (primitive p f.now))) (map class_of entries.now)
        ++ drop (length entries.now) marks.old }
{
    let mut d = [0u32; 65];
    let len = f.len() - 1;
    let q = valuation::common_power(f, p);
    derivative(f, q, p, &mut d[..len]);
    for (i, entry) in entries.iter().enumerate() {
        marks[i] = mark(&d[..len], *entry, p);
    }
}
