// The solver once p and n are accepted and the coefficients are reduced: from a row of residues to the lent lists.
ghost use Rattle.std.specs.Prelude.{◌≡◌, map, ◌≤◌, ◌<◌, length, take};
ghost use Rattle.theory.specs.Live.{live_of};
ghost use Rattle.numbers.specs.inner.Usable.{Usable};
ghost use Rattle.solver.specs.Solve.{lists as lists_of};
ghost use Rattle.solver.specs.inner.Table.{Below};
ghost use Rattle.solver.specs.inner.Entry.{entry};
ghost use Rattle.solver.specs.inner.Reduced.{zero_classes, reduced_solved, reduced_lists};

use crate::entry::{Entry, NONE};
use crate::tree::{Node, PrimePower, Settled};
use crate::{Found, lists, sort, tree};
use refusal::Refusal;

// The classes of the zeros of f modulo m = pⁿ go, rising, into the first of `entries`. Their number, and the number of
// live classes.
fn zero_classes(f: &[u32], p: u32, n: u32, m: u64, entries: &mut [Entry]) -> Settled
    requires { Usable p n m × (length f.now ≤ 65) × Below m f.now × (64 ≤ length entries.old) }
    ensures classes { (result.k ≤ 64) × (take result.k entries.new ≡ map entry (zero_classes f.now p n)) }
    ensures live { result.live ≡ live_of f.now p n n }
{
    let over = PrimePower::new(p, n, m);
    let everything = Node::everything(n);
    let mut table = [0u32; 65];
    let g = &mut table[..f.len()];
    g.copy_from_slice(f);
    let settled = tree::settle(g, over, everything, entries, 0);
    let k = settled.k;
    sort::sort(entries, k);
    settled
}

// The classes of the zeros of f modulo m = pⁿ, their marks, the root count and the number of live classes. Rules 6 and 11; a refusal alters
// nothing.
pub(crate) fn solve_reduced(
    f: &[u32],
    p: u32,
    n: u32,
    m: u64,
    residues: &mut [i32],
    levels: &mut [u8],
    marks: &mut [u8],
) -> Result<Found, Refusal>
    requires { Usable p n m × (0 < length f.now) × (length f.now ≤ 65) × Below m f.now }
    ensures answer { result ≡ reduced_solved f.now p n
        (lists_of residues.old levels.old marks.old) }
    ensures lists { lists_of residues.new levels.new marks.new
        ≡ reduced_lists f.now p n (lists_of residues.old levels.old marks.old) }
{
    let slots = residues.len();
    if slots != levels.len() || slots != marks.len() {
        let shortest = slots.min(levels.len().min(marks.len()));
        return Err(Refusal::Lengths(shortest));
    }
    let mut entries = [NONE; 64];
    let settled = zero_classes(f, p, n, m, &mut entries);
    let k = settled.k;
    if slots < k {
        return Err(Refusal::TooFewSlots(k));
    }
    let roots = lists::fill(f, p, n, &entries[..k], residues, levels, marks);
    Ok(Found {
        classes: k,
        roots,
        live: settled.live,
    })
}
