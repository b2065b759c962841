// Entries of a list of classes by themselves: level, range and order, the faults of rule 7 but a shared member.
ghost use Rattle.std.specs.Prelude.{◌≡◌, ◌^◌, ◌≤◌, ◌<◌, length};
ghost use Rattle.classes.specs.Rule7.{classes_of};
ghost use Rattle.classes.specs.inner.Search.{unusable_at, usable_to};

// Whether entry i has a level above n, a residue out of range or one not above the entry before.
fn unusable(p: u32, n: u32, residues: &[i32], levels: &[u8], i: usize) -> bool
    requires { (i < length residues.now) × (i < length levels.now) × (2 ≤ p) × (p ^ n ≤ 4294967295) }
    ensures { result ≡ unusable_at p n (classes_of residues.now levels.now) i }
{
    let t = u32::from(levels[i]);
    n < t
        || !numbers::is_centered(residues[i], numbers::power(p, t) as u32)
        || (0 < i && residues[i] <= residues[i - 1])
}

// The first such entry, and the length where there is none: how many entries `fault` looks at, so a number and no `Option`.
pub(crate) fn first_unusable(p: u32, n: u32, residues: &[i32], levels: &[u8]) -> usize
    requires { (2 ≤ p) × (p ^ n ≤ 4294967295) × (length residues.now ≡ length levels.now) }
    ensures { result ≡ usable_to p n (classes_of residues.now levels.now) }
{
    for i in 0..residues.len() {
        if unusable(p, n, residues, levels, i) {
            return i;
        }
    }
    residues.len()
}
