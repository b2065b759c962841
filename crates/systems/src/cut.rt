// Two class lists cut: the classes of the first that lie in one of the second, and those of the second that lie in a larger one of the
// first, rising. They are the list of the residues in both.
ghost use Rattle.std.specs.Prelude.{◌≡◌, Bool, ℕ, ◌+◌, ◌^◌, ◌≤◌, ◌<◌, length};
ghost use Rattle.std.specs.List.{list_any, zip};
ghost use Rattle.theory.specs.SignedClass.{signed_slot};
ghost use Rattle.theory.specs.SignedList.{signed_list};
ghost use Rattle.theory.specs.inner.Cut.{both};
ghost use Rattle.classes.specs.Rule7.{classes_of};
ghost use Rattle.systems.specs.inner.Cutting.{covers_by, Powers, LevelsTo, first_is_next, covers as covers_of, KeptIf, ListOf, Written};

// The powers of p by their exponents, where they fit.
fn powers(p: u32) -> [u64; 32]
    ensures { (n : ℕ) → 2 ≤ p → p ^ n ≤ 4294967295 → Powers p n result }
{
    let mut table = [1u64; 32];
    for i in 1..32 {
        table[i] = table[i - 1].saturating_mul(p as u64);
    }
    table
}

// Whether z is a member of the class a/t, and t is below the limit.
fn covers(powers: &[u64; 32], a: i32, t: u8, z: i32, limit: u32) -> bool
    ensures { result ≡ covers_by powers.now limit z (record { 0 = a; 1 = t }) }
{
    let q = powers[(t % 32) as usize];
    (t as u32) < limit && numbers::reduce(z as i64, q) == numbers::reduce(a as i64, q)
}

// Whether z is a member of one of these classes whose level is below the limit. A loop by the index, since `zip` tests
// both lists for their end at each class, and a withdrawal takes a twentieth longer.
fn covered(powers: &[u64; 32], residues: &[i32], levels: &[u8], z: i32, limit: u32) -> bool
    requires { length residues.now ≡ length levels.now }
    ensures { result ≡ list_any (covers_by powers.now limit z) (zip residues.now levels.now) }
{
    for (i, a) in residues.iter().enumerate() {
        if covers(powers, *a, levels[i], z, limit) {
            return true;
        }
    }
    false
}

// Whether the next of two rising lists, read from i and from j on, is one of the first.
#[tactic(auto, unfolding(crate::specs::inner::Cutting::first_is_next))]
fn first_is_next(a: &[i32], b: &[i32], i: usize, j: usize) -> bool
    ensures { result ≡ first_is_next a.now b.now i j }
{
    i < a.len() && (b.len() <= j || a[i] <= b[j])
}

// Puts entry i of the list a, t after the first k classes written, where it lies in a class of the list b, s whose level is below its own
// plus `more`; the number of classes then.
fn keep_covered(
    powers: &[u64; 32],
    a: &[i32],
    t: &[u8],
    i: usize,
    more: u32,
    b: &[i32],
    s: &[u8],
    residues: &mut [i32],
    levels: &mut [u8],
    k: usize,
) -> usize
    requires { (i < length a.now) × (length a.now ≡ length t.now) × (length b.now ≡ length s.now) × (more ≤ 1)
        × (length residues.old ≡ length levels.old) × (k ≤ length residues.old) }
    ensures within { result ≤ length residues.old }
    ensures kept { (p n : ℕ) → Powers p n powers.now → LevelsTo n s.now
        → KeptIf (covers_of p more (classes_of b.now s.now)
        (signed_slot (classes_of a.now t.now) i)) (signed_slot (classes_of a.now t.now) i)
        k result residues.old residues.new levels.old levels.new }
{
    let inside = covered(powers, b, s, a[i], t[i] as u32 + more);
    if !inside || residues.len() <= k {
        return k;
    }
    residues[k] = a[i];
    levels[k] = t[i];
    k + 1
}

// Cuts the list a, t by the list b, s; the classes go into the first slots, and their number is returned.
pub(crate) fn cut(
    p: u32,
    a: &[i32],
    t: &[u8],
    b: &[i32],
    s: &[u8],
    residues: &mut [i32],
    levels: &mut [u8],
) -> usize
    requires { (length a.now ≡ length t.now) × (length b.now ≡ length s.now) × (length a.now + length b.now ≤ 2048)
        × (length residues.old ≡ length levels.old) }
    ensures within { result ≤ length residues.old }
    ensures lists { (S T : ℕ → Bool) (n : ℕ) → 2 ≤ p → p ^ n ≤ 4294967295 → ListOf S p n a.now t.now
        → ListOf T p n b.now s.now → length (signed_list (both S T) p n) ≤ length residues.old
        → Written (signed_list (both S T) p n) result residues.old residues.new levels.old
        levels.new }
{
    let table = powers(p);
    let total = a.len() + b.len();
    let mut i: usize = 0;
    let mut j: usize = 0;
    let mut k: usize = 0;
    while i + j < total {
        if first_is_next(a, b, i, j) {
            k = keep_covered(&table, a, t, i, 1, b, s, residues, levels, k);
            i += 1;
        } else {
            k = keep_covered(&table, b, s, j, 0, a, t, residues, levels, k);
            j += 1;
        }
    }
    k
}
