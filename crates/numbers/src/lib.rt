// Total functions on machine integers that several crates need: the least divisor, powers and their sums, residues, the test of p and n.
#![tactic(auto)]

ghost use Rattle.std.specs.Prelude.{◌≡◌, ◌-◌, ◌^◌};
ghost use Rattle.theory.specs.Prime.{least_divisor};
ghost use Rattle.theory.specs.ClassList.{member_total};
ghost use Rattle.numbers.specs.Saturated.{saturated};
ghost use Rattle.numbers.specs.Modulus.{precision_of, modulus_of};

use refusal::Refusal;

mod residue;

pub use residue::{centered, is_centered, reduce};

// The least divisor above 1, by trial division. A `while`, since it ends at the square root and not after a count.
pub fn least_divisor(p: u32) -> u32
    ensures { result ≡ least_divisor p }
{
    if p < 2 {
        return 2;
    }
    let x = p as u64;
    let mut d: u64 = 2;
    while d * d <= x {
        if x % d == 0 {
            return d as u32;
        }
        d += 1;
    }
    p
}

// pⁿ, and 2^32 where it is more.
#[tactic(auto, unfolding(crate::specs::Saturated::saturated))]
pub fn power(p: u32, n: u32) -> u64
    ensures { result ≡ saturated (p ^ n) }
{
    u64::from(p).saturating_pow(n).min(4294967296)
}

// The number of members of a class of level t modulo pⁿ, and 2^32 where it is more.
pub fn member_count(p: u32, n: u32, t: u8) -> u64
    ensures { result ≡ saturated (p ^ (n - t)) }
{
    power(p, n.saturating_sub(u32::from(t)))
}

// The sum of the member numbers of classes of these levels modulo pⁿ, and 2^32 where it is more.
pub fn member_total(p: u32, n: u32, levels: &[u8]) -> u64
    ensures { result ≡ saturated (member_total p n levels.now) }
{
    let mut sum: u64 = 0;
    for t in levels {
        sum = (sum + member_count(p, n, *t)).min(4294967296);
    }
    sum
}

// Rule 5: pⁿ, or the refusal.
pub fn check_precision(p: u32, n: u32) -> Result<u64, Refusal>
    ensures { result ≡ precision_of p n }
{
    let modulus = power(p, n);
    if n == 0 || 4294967295 < modulus {
        return Err(Refusal::Precision);
    }
    Ok(modulus)
}

// Rules 4, 14 and 5: pⁿ, or the refusal.
pub fn check_modulus(p: u32, n: u32) -> Result<u64, Refusal>
    ensures { result ≡ modulus_of p n }
{
    if p < 2 || 65535 < p {
        return Err(Refusal::PrimeOutOfRange);
    }
    let divisor = least_divisor(p);
    if divisor != p {
        return Err(Refusal::Composite(divisor as usize));
    }
    check_precision(p, n)
}
