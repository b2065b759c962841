// Raising the precision of a list (02, 2.9).
ghost use Rattle.std.specs.Prelude.{◌≡◌, map, ◌^◌, ◌≤◌, ◌<◌, length, take};
ghost use Rattle.numbers.specs.inner.Usable.{Usable};
ghost use Rattle.classes.specs.Rule7.{classes_of};
ghost use Rattle.solver.specs.Solve.{lists as lists_of};
ghost use Rattle.solver.specs.Raise.{raised_of, raised_lists};
ghost use Rattle.solver.specs.inner.Table.{Below};
ghost use Rattle.solver.specs.inner.Entry.{entry};
ghost use Rattle.solver.specs.inner.Raise.{raise_modulus, later_modulus, lists_modulus, GivenClasses};
ghost use Rattle.solver.specs.inner.Raise.{classes_among, among_raised, among_lists};

use crate::entry::{Entry, NONE};
use crate::tree::PrimePower;
use crate::{Listed, join, lists, reduce, sort, start};
use refusal::Refusal;

// The roots modulo p^m that are members of the given classes, a list at precision n: residues of least size, levels and marks of the
// shortest list of them go into the first slots of the three lists, rising by residue; later slots keep their content. Where the given list
// is the solver's at n, that is the solver's at m. Rules 2, 3, 4, 14, 5 for n, 5 for m, 17, 6 for the given lists, 6 for those to be
// filled, 7 and 11; a refusal alters nothing.
pub fn raise_precision(
    coefficients: &[i64],
    p: u32,
    n: u32,
    m: u32,
    given_residues: &[i32],
    given_levels: &[u8],
    residues: &mut [i32],
    levels: &mut [u8],
    marks: &mut [u8],
) -> Result<Listed, Refusal>
    ensures answer { result ≡ raised_of coefficients.now p n m given_residues.now given_levels.now
        (lists_of residues.old levels.old marks.old) }
    ensures lists { lists_of residues.new levels.new marks.new
        ≡ raised_lists coefficients.now p n m given_residues.now given_levels.now
        (lists_of residues.old levels.old marks.old) }
{
    let lengths = LentLengths {
        residues: residues.len(),
        levels: levels.len(),
        marks: marks.len(),
    };
    let modulus = check_raise(coefficients, p, n, m, given_residues, given_levels, lengths)?;
    let row = reduce::reduced(coefficients, modulus);
    raise_reduced(
        &row[..coefficients.len()],
        p,
        m,
        modulus,
        given_residues,
        given_levels,
        residues,
        levels,
        marks,
    )
}

// The lengths of the lists to be filled.
#[derive(Clone, Copy)]
struct LentLengths {
    residues: usize,
    levels: usize,
    marks: usize,
}

// All rules but 11: p^m, or the refusal.
fn check_raise(
    coefficients: &[i64],
    p: u32,
    n: u32,
    m: u32,
    given_residues: &[i32],
    given_levels: &[u8],
    lengths: LentLengths,
) -> Result<u64, Refusal>
    ensures { result ≡ raise_modulus coefficients.now p n m given_residues.now given_levels.now
        lengths }
{
    crate::check_polynomial(coefficients, p, n)?;
    check_given(p, n, m, given_residues, given_levels, lengths)
}

// Rule 5 for m, and the rules after it.
fn check_given(
    p: u32,
    n: u32,
    m: u32,
    given_residues: &[i32],
    given_levels: &[u8],
    lengths: LentLengths,
) -> Result<u64, Refusal>
    requires { Usable p n (p ^ n) }
    ensures { result ≡ later_modulus p n m given_residues.now given_levels.now lengths }
{
    let modulus = numbers::check_precision(p, m)?;
    if m < n || 64 < given_residues.len() || 64 < given_levels.len() {
        return Err(Refusal::PrecisionsFall);
    }
    check_lists(p, n, modulus, given_residues, given_levels, lengths)
}

// Rule 6 for the given lists and for those to be filled, and rule 7.
fn check_lists(
    p: u32,
    n: u32,
    modulus: u64,
    given_residues: &[i32],
    given_levels: &[u8],
    lengths: LentLengths,
) -> Result<u64, Refusal>
    requires { Usable p n (p ^ n) }
    ensures { result ≡ lists_modulus p n given_residues.now given_levels.now lengths modulus }
{
    let given = given_residues.len();
    if given != given_levels.len() {
        return Err(Refusal::Lengths(given.min(given_levels.len())));
    }
    if lengths.residues != lengths.levels || lengths.residues != lengths.marks {
        let shortest = lengths.residues.min(lengths.levels.min(lengths.marks));
        return Err(Refusal::Lengths(shortest));
    }
    classes::check_list(p, n, given_residues, given_levels)?;
    Ok(modulus)
}

// The classes of the zeros of f modulo m = pⁿ that lie in the given classes go, rising, into the first of `entries`.
// Their number. At most 64 classes of the zeros' own list and 64 given ones are found, and a given class that is searched needs room for 64
// meanwhile.
fn classes_among(
    f: &[u32],
    p: u32,
    n: u32,
    m: u64,
    given_residues: &[i32],
    given_levels: &[u8],
    entries: &mut [Entry],
) -> usize
    requires { Usable p n m × (0 < length f.now) × (length f.now ≤ 65) × Below m f.now
        × GivenClasses p n given_residues.now given_levels.now × (128 ≤ length entries.old) }
    ensures { (result ≤ 128) × (take result entries.new
        ≡ map entry (classes_among f.now p n (classes_of given_residues.now given_levels.now))) }
{
    let over = PrimePower::new(p, n, m);
    let mut scratch = [NONE; 192];
    let started = start::start_all(f, over, given_residues, given_levels, &mut scratch);
    let k = join::join(&scratch[..started], p, n, entries);
    sort::sort(entries, k);
    k
}

// These classes, their marks and the root count. Rule 11; a refusal alters nothing.
fn raise_reduced(
    f: &[u32],
    p: u32,
    n: u32,
    m: u64,
    given_residues: &[i32],
    given_levels: &[u8],
    residues: &mut [i32],
    levels: &mut [u8],
    marks: &mut [u8],
) -> Result<Listed, Refusal>
    requires { Usable p n m × (0 < length f.now) × (length f.now ≤ 65) × Below m f.now
        × GivenClasses p n given_residues.now given_levels.now
        × (length residues.old ≡ length levels.old) × (length residues.old ≡ length marks.old) }
    ensures answer { result ≡ among_raised f.now p n (classes_of given_residues.now given_levels.now)
        (lists_of residues.old levels.old marks.old) }
    ensures lists { lists_of residues.new levels.new marks.new
        ≡ among_lists f.now p n (classes_of given_residues.now given_levels.now)
        (lists_of residues.old levels.old marks.old) }
{
    let mut entries = [NONE; 128];
    let k = classes_among(f, p, n, m, given_residues, given_levels, &mut entries);
    if residues.len() < k {
        return Err(Refusal::TooFewSlots(k));
    }
    let roots = lists::fill(f, p, n, &entries[..k], residues, levels, marks);
    Ok(Listed { classes: k, roots })
}
