// The number of zeros modulo every power of p, by one walk of the tree of digits. A row of e counts belongs to a polynomial modulo p^e:
// entry i is for p^(i + 1). The numbers counted are those below pⁿ, whatever the power, so that a class adds the same to each entry that
// it adds to.
ghost use Rattle.std.specs.Prelude.{ℕ, suc, ◌≤◌, ◌<◌, length};
ghost use Rattle.theory.specs.Polynomial.{zeros as zeros_of};
ghost use Rattle.theory.specs.Shortest.{count as count_of};
ghost use Rattle.theory.specs.inner.Overwritten.{Overwritten};
ghost use Rattle.numbers.specs.inner.Usable.{Usable};
ghost use Rattle.solver.specs.inner.Table.{Below};
ghost use Rattle.solver.specs.inner.Recursion.{AtNode, Primitive};
ghost use Rattle.solver.specs.inner.Counts.{Fits, AddedUpTo, Room, Added, scaled};

use crate::tree::{Node, PrimePower};
use crate::{digits, polynomial, taylor, tree, valuation};

// Adds x to the first `end` entries.
fn add(counts: &mut [u64], end: usize, x: u64)
    requires { Fits end x counts.old }
    ensures { AddedUpTo end x counts.old counts.new }
{
    for count in counts[..end].iter_mut() {
        *count += x;
    }
}

// Adds the numbers of zeros of g among the numbers y of the node's class. The coefficients are divided by the power of p that they have in
// common.
#[cycle(count_class_count_digits)]
fn count_class(g: &mut [u32], over: PrimePower, node: Node, counts: &mut [u64])
    requires { AtNode g.old over node × Room g.old over node counts.old }
    ensures { Added g.old over node counts.old counts.new }
{
    let members = numbers::power(over.p as u32, node.left as u32);
    if polynomial::all_zero(g) {
        add(counts, over.exponent as usize, members);
        return;
    }
    if node.left == 0 {
        let v = valuation::lower(over.exponent, g[0] as u64, over.p);
        add(counts, v as usize, members);
        return;
    }
    let rest = tree::make_primitive(g, over);
    let s = (over.exponent - rest.exponent) as usize;
    add(counts, s, members);
    count_digits(g, rest, node, &mut counts[s..]);
}

// The same by the p classes one level below. Only a digit at which h vanishes modulo p can have a zero below it.
#[cycle(count_class_count_digits)]
fn count_digits(h: &[u32], over: PrimePower, node: Node, counts: &mut [u64])
    requires { Primitive h.now over node × Room h.now over node counts.old }
    ensures { Added h.now over node counts.old counts.new }
{
    let mut zeros = [0u16; 64];
    let number = digits::zero_digits(h, over.p, &mut zeros);
    let cap = (over.exponent as usize).min(h.len());
    for &zero in &zeros[..number] {
        let c = zero as u64;
        let mut table = [0u32; 65];
        let g = &mut table[..cap];
        taylor::shift(h, c, over.p, over.power, g);
        count_class(g, over, tree::child(node, over.p, c), counts);
    }
}

// Writes N_0, …, N_n, given the counts of zeros below m = pⁿ modulo p, …, pⁿ.
fn write_counts(zeros: &[u64], p: u32, n: u32, m: u64, counts: &mut [u64])
    requires { Usable p n m × (n ≤ length zeros.now) × (n < length counts.old) }
    ensures { Overwritten (scaled p n zeros.now) 0 (suc n) counts.old counts.new }
{
    counts[0] = 1;
    let mut rest = m;
    for j in 0..n as usize {
        rest = rest / p as u64;
        counts[j + 1] = zeros[j] / rest;
    }
}

// The number of zeros of f modulo p^j among the residues below p^j, for each j from 0 to n.
pub(crate) fn count_reduced(f: &[u32], p: u32, n: u32, m: u64, counts: &mut [u64])
    requires { Usable p n m × (length f.now ≤ 65) × Below m f.now × (n < length counts.old) }
    ensures { Overwritten (λ (j : ℕ). count_of (zeros_of f.now p j) p j) 0 (suc n) counts.old counts.new }
{
    let over = PrimePower::new(p, n, m);
    let everything = Node::everything(n);
    let mut table = [0u32; 65];
    let g = &mut table[..f.len()];
    g.copy_from_slice(f);
    let mut zeros = [0u64; 32];
    count_class(g, over, everything, &mut zeros[..n as usize]);
    write_counts(&zeros, p, n, m, counts);
}
