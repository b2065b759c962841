// Rule 7: the first entry of a list of classes that is not usable.
ghost use Rattle.std.specs.Prelude.{◌≡◌, ◌^◌, ◌≤◌, length, ltb, position};
ghost use Rattle.classes.specs.Rule7.{classes_of, first_fault};

use crate::{overlap, usable};

// The first index whose entry has a fault, and the length where none has: among the entries before the first with a fault of its own, the
// first that shares a member with an earlier one. A number and no `Option`: it is a bound of the search, and the least of several is taken.
pub(crate) fn first_fault(p: u32, n: u32, residues: &[i32], levels: &[u8]) -> usize
    requires { (2 ≤ p) × (p ^ n ≤ 4294967295) × (length residues.now ≡ length levels.now) }
    ensures { result ≡ first_fault p n (classes_of residues.now levels.now) }
{
    let m = usable::first_unusable(p, n, residues, levels);
    let residues = &residues[..m];
    let levels = &levels[..m];
    let present = overlap::levels_present(levels);
    let mut first = m;
    for i in 0..m {
        first = overlap::least_overlap(p, &present, residues, levels, i, first);
    }
    first
}

// The first index with a mark above 2.
pub(crate) fn first_high_mark(marks: &[u8]) -> Option<usize>
    ensures { result ≡ position (λ mark. ltb 2 mark) marks.now }
{
    marks.iter().position(|mark| 2 < *mark)
}
