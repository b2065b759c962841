// The next root: the least member of a list of classes at or after a point.
ghost use Rattle.std.specs.Prelude.{◌≡◌, ◌-◌, ◌^◌, ◌≤◌, ◌<◌, length, slice_index, EachIndex};
ghost use Rattle.theory.specs.Range.{least as least_of};
ghost use Rattle.theory.specs.ClassList.{members};
ghost use Rattle.theory.specs.SignedClass.{naturals};
ghost use Rattle.classes.specs.Rule7.{classes_of};
ghost use Rattle.classes.specs.Next.{next_of};
ghost use Rattle.classes.specs.inner.Search.{member_from};

use refusal::Refusal;

// The least member at or after the point of the classes that the lists hold, or none. Rules 4, 14, 5, 6, 7 and 8.
pub fn next_root(
    p: u32,
    n: u32,
    residues: &[i32],
    levels: &[u8],
    point: u32,
) -> Result<Option<u32>, Refusal>
    ensures { result ≡ next_of p n residues.now levels.now point }
{
    let m = crate::check_list(p, n, residues, levels)?;
    let start = u64::from(point);
    if m <= start {
        return Err(Refusal::Point);
    }
    let r = least_member(p, m, residues, levels, start);
    if m <= r {
        return Ok(None);
    }
    Ok(Some(r as u32))
}

// The least member from the point on, and m where there is none, since the running minimum starts there.
fn least_member(p: u32, m: u64, residues: &[i32], levels: &[u8], point: u64) -> u64
    requires { (2 ≤ p) × (length residues.now ≡ length levels.now) × EachIndex levels.now (λ i. p ^ slice_index levels.now i ≤ 4294967295)
        × (point ≤ m) × (m ≤ 4294967295) }
    ensures { result ≡ least_of (members p (naturals p (classes_of residues.now levels.now))) (m - point) point }
{
    let mut best = m;
    for (residue, level) in residues.iter().zip(levels) {
        let q = numbers::power(p, u32::from(*level));
        let a = numbers::reduce(i64::from(*residue), q);
        best = best.min(member_from(a, q, point));
    }
    best
}

// The least number at or after the point that is congruent to a modulo q.
fn member_from(a: u64, q: u64, point: u64) -> u64
    requires { (a < q) × (q ≤ 4294967295) × (point ≤ 4294967295) }
    ensures { result ≡ member_from a q point }
{
    a + point.saturating_sub(a).next_multiple_of(q)
}
