// Joining classes that share no member: as few as have the same members. Where the member numbers of the classes inside a larger one add
// up to its own, it takes their place.
ghost use Rattle.std.specs.Prelude.{◌≡◌, map, ◌/◌, ◌%◌, ◌^◌, ◌≤◌, ◌<◌, length, take};
ghost use Rattle.theory.specs.inner.Join.{inside_total, joined_level, joined, FewStay, FilledDown, AllFilledDown};
ghost use Rattle.solver.specs.inner.Entry.{entry as entry_of, class_of};

use crate::entry::Entry;

// The member numbers modulo pⁿ of the classes that lie in the class of residue a modulo q = p^t, added up.
fn inside_total(entries: &[Entry], p: u32, n: u32, a: u64, q: u64, t: u32) -> u64
    requires { (2 ≤ p) × (p ^ n ≤ 4294967295) × (q ≡ p ^ t) × (length entries.now ≤ 65536) }
    ensures { result ≡ inside_total p n a t (map class_of entries.now) }
{
    let mut sum: u64 = 0;
    for &x in entries {
        if t <= x.level as u32 && numbers::reduce(x.residue as i64, q) == a {
            sum += numbers::member_count(p, n, x.level);
        }
    }
    sum
}

// The level of the largest class around the residue of x, one of the classes, that takes the place of those inside it: from x itself on, as
// long as the next larger class is filled.
fn search_level(entries: &[Entry], p: u32, n: u32, x: Entry) -> u32
    requires { (2 ≤ p) × (p ^ n ≤ 4294967295) × (length entries.now ≤ 65536) × FilledDown p n (map class_of entries.now) (class_of x) }
    ensures { result ≡ joined_level p n (map class_of entries.now) (class_of x).residue }
{
    let z = x.residue as i64;
    let level = x.level as u32;
    let mut q = numbers::power(p, level);
    for t in (0..level).rev() {
        let larger = q / p as u64;
        let a = numbers::reduce(z, larger);
        if inside_total(entries, p, n, a, larger, t) != numbers::power(p, n - t) {
            return t + 1;
        }
        q = larger;
    }
    0
}

// The same. Fewer classes than p fill no larger one.
fn joined_level(entries: &[Entry], p: u32, n: u32, x: Entry) -> u32
    requires { (2 ≤ p) × (p ^ n ≤ 4294967295) × (length entries.now ≤ 65536) × FilledDown p n (map class_of entries.now) (class_of x)
        × (length entries.now < p → joined_level p n (map class_of entries.now) (class_of x).residue ≡ x.level) }
    ensures { result ≡ joined_level p n (map class_of entries.now) (class_of x).residue }
{
    if entries.len() < p as usize {
        return x.level as u32;
    }
    search_level(entries, p, n, x)
}

// The classes joined, into the first entries of `out`; their number. Each keeps the residue of the one among them that has its residue.
pub(crate) fn join(entries: &[Entry], p: u32, n: u32, out: &mut [Entry]) -> usize
    requires { (2 ≤ p) × (p ^ n ≤ 4294967295) × (length entries.now ≤ 65536)
        × (length entries.now ≤ length out.old) × FewStay p n (map class_of entries.now)
        × AllFilledDown p n (map class_of entries.now) }
    ensures { (result ≤ length entries.now)
        × (take result out.new ≡ map entry_of (joined p n (map class_of entries.now))) }
{
    let mut k: usize = 0;
    for &x in entries {
        let z = x.residue;
        let t = joined_level(entries, p, n, x);
        if numbers::is_centered(z, numbers::power(p, t) as u32) {
            out[k] = Entry {
                residue: z,
                level: t as u8,
            };
            k += 1;
        }
    }
    k
}
