// Residues: an integer modulo m, and the residue of least size.
ghost use Rattle.std.specs.Prelude.{◌≡◌, ◌-◌, ◌%◌};
ghost use Rattle.theory.specs.Polynomial.{reduce as reduce_of};
ghost use Rattle.theory.specs.Centered.{is_centered, centered as centered_of};

// k modulo m, which is k itself for m = 0.
fn remainder(k: u64, m: u64) -> u64
    ensures { result ≡ k % m }
{
    k.checked_rem(m).unwrap_or(k)
}

// −(k + 1) modulo m, which is 0 for m = 0.
fn complement(k: u64, m: u64) -> u64
    ensures { result ≡ m - 1 - k % m }
{
    if m == 0 {
        return 0;
    }
    m - 1 - k % m
}

// x reduced to 0 … m − 1. A negative x is −(k + 1), where k is !x.
pub fn reduce(x: i64, m: u64) -> u64
    ensures { result ≡ reduce_of m x }
{
    if x < 0 {
        complement((!x) as u64, m)
    } else {
        remainder(x as u64, m)
    }
}

// The number of least size that is congruent to a modulo q, for an a below q: a, or a − q.
pub fn centered(a: u32, q: u32) -> i64
    ensures { result ≡ centered_of q a }
{
    if 2 * (a as u64) <= q as u64 {
        return a as i64;
    }
    a as i64 - q as i64
}

// Whether z is in the range of the numbers of least size modulo q: −q < 2z ≤ q.
#[tactic(auto, using(crate::proofs::Range::below_range, crate::proofs::Range::above_low))]
pub fn is_centered(z: i32, q: u32) -> bool
    ensures { result ≡ is_centered q z }
{
    let bound = i64::from(q);
    let twice = 2 * i64::from(z);
    -bound < twice && twice <= bound
}
