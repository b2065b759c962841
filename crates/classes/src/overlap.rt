// Entries of a list of classes that share members. Of two such one contains the other, so it is the class of its level around the other.
ghost use Rattle.std.specs.Prelude.{◌≡◌, ◌^◌, ◌≤◌, ◌<◌, length, get_or, MatchOption};
ghost use Rattle.theory.specs.Polynomial.{reduce as reduce_of};
ghost use Rattle.theory.specs.Centered.{centered as centered_of};
ghost use Rattle.theory.specs.SignedClass.{signed_class};
ghost use Rattle.classes.specs.Rule7.{classes_of};
ghost use Rattle.classes.specs.inner.Search.{RisingTo, Present, index_of, overlap, least_value};

// For each level modulo 32, whether an entry has it.
pub(crate) fn levels_present(levels: &[u8]) -> [bool; 32]
    ensures { Present result levels.now }
{
    let mut present = [false; 32];
    for t in levels {
        present[usize::from(*t % 32)] = true;
    }
    present
}

// The index of the class a/t in the list, if it is there. Most lists have few levels, so for most t no search is needed.
fn index_of(present: &[bool; 32], residues: &[i32], levels: &[u8], a: i32, t: u8) -> Option<usize>
    requires { (length residues.now ≡ length levels.now) × RisingTo residues.now (length residues.now)
        × Present present.now levels.now }
    ensures { let k = length residues.now in
        let first = index_of (classes_of residues.now levels.now) k (signed_class a t) in
        MatchOption result (first ≡ k) (λ j. (j < k) × (first ≡ j)) }
{
    if !present[usize::from(t % 32)] {
        return None;
    }
    let Ok(j) = residues.binary_search(&a) else {
        return None;
    };
    if levels[j] == t { Some(j) } else { None }
}

// The residue of least size congruent to z modulo q.
fn residue_around(z: i32, q: u64) -> i32
    requires { (0 < q) × (q ≤ 4294967295) }
    ensures { result ≡ centered_of q (reduce_of q z) }
{
    let a = numbers::reduce(z as i64, q);
    numbers::centered(a as u32, q as u32) as i32
}

// The least of `best` and of the overlaps that entry i has with larger classes of the list.
pub(crate) fn least_overlap(
    p: u32,
    present: &[bool; 32],
    residues: &[i32],
    levels: &[u8],
    i: usize,
    best: usize,
) -> usize
    requires { (length residues.now ≡ length levels.now) × RisingTo residues.now (length residues.now) × (i < length residues.now)
        × (best ≤ length residues.now) × (2 ≤ p) × (p ^ get_or levels.now i 0 ≤ 4294967295) × Present present.now levels.now }
    ensures { result ≡ least_value (overlap p (classes_of residues.now levels.now) (length residues.now) i) (get_or levels.now i 0) best }
{
    let mut least = best;
    let mut q: u64 = 1;
    for s in 0..levels[i] {
        let a = residue_around(residues[i], q);
        if let Some(j) = index_of(present, residues, levels, a, s) {
            least = least.min(i.max(j));
        }
        q *= u64::from(p);
    }
    least
}
