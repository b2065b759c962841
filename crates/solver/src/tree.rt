// The recursion over the digits: settling a class calls the scan of its digits, which settles each child class.
ghost use Rattle.std.specs.Prelude.{◌≡◌, Bool, true, false, ℕ, ◌+◌, ◌^◌, ◌≤◌, ◌<◌, length};
ghost use Rattle.theory.specs.Range.{all_below};
ghost use Rattle.theory.specs.Polynomial.{zeros as zeros_of};
ghost use Rattle.theory.specs.Degree.{least_valuation, all_zero, primitive};
ghost use Rattle.theory.specs.Live.{live_of};
ghost use Rattle.solver.specs.inner.Table.{Below, degree_modulo};
ghost use Rattle.solver.specs.inner.Recursion.{over, everything, IsPrimePower, lowered, IsNode, AtNode, Primitive, child_at, most_classes, Done};

use crate::entry::Entry;
use crate::{digits, polynomial, taylor, valuation};

// The modulus of a polynomial: a power of a prime.
#[derive(Clone, Copy)]
pub(crate) struct PrimePower {
    pub(crate) p: u64,
    pub(crate) exponent: u64,
    // p^exponent
    pub(crate) power: u64,
}

impl PrimePower {
    pub(crate) fn new(p: u32, exponent: u32, power: u64) -> PrimePower
        ensures { result ≡ over p exponent power }
    {
        PrimePower {
            p: p as u64,
            exponent: exponent as u64,
            power,
        }
    }
}

// A class residue/level in the tree of digits.
#[derive(Clone, Copy)]
pub(crate) struct Node {
    pub(crate) residue: u64,
    // p^level
    pub(crate) power: u64,
    pub(crate) level: u64,
    // the levels below it
    pub(crate) left: u64,
}

impl Node {
    // The class of everything, with so many levels below it.
    pub(crate) fn everything(levels: u32) -> Node
        ensures { result ≡ everything levels }
    {
        Node {
            residue: 0,
            power: 1,
            level: 0,
            left: levels as u64,
        }
    }
}

#[derive(Clone, Copy)]
pub(crate) struct Settled {
    // the number of classes now
    pub(crate) k: usize,
    // whether the class settled is whole
    pub(crate) whole: bool,
    // the number of live classes: it and those below it
    pub(crate) live: u64,
}

// Puts the node's class, which is whole, after the first k; so many classes were live.
fn put_whole(node: Node, live: u64, out: &mut [Entry], k: usize) -> Settled
    requires { (node.residue < node.power) × (node.power ≤ 4294967295) × (node.level < 256) × (k < length out.old) }
    ensures classes { (S : ℕ → Bool) (p : ℕ) → node.power ≡ p ^ node.level → all_below S (p ^ node.left) ≡ true
        → Done S p node k result out.old out.new }
    ensures live { result.live ≡ live }
{
    out[k] = Entry::new(node.residue, node.power, node.level);
    Settled {
        k: k + 1,
        whole: true,
        live,
    }
}

// The class one level below, at the digit c.
pub(crate) fn child(node: Node, p: u64, c: u64) -> Node
    requires { IsNode p node × (0 < node.left) × (c < p) }
    ensures { result ≡ child_at node p c }
{
    Node {
        residue: node.residue + node.power * c,
        power: node.power * p,
        level: node.level + 1,
        left: node.left - 1,
    }
}

// Divides g, a polynomial modulo `over`, by the largest power of p that divides every coefficient. The modulus that is left.
pub(crate) fn make_primitive(g: &mut [u32], over: PrimePower) -> PrimePower
    requires { IsPrimePower over × Below over.power g.old × (all_zero g.old ≡ false) }
    ensures quotient { g.new ≡ primitive over.p g.old }
    ensures modulus { result ≡ lowered over (least_valuation over.p g.old) }
{
    let s = valuation::least_valuation(g, over.p);
    let power = numbers::power(over.p as u32, s as u32);
    polynomial::divide(g, power as u32);
    PrimePower {
        p: over.p,
        exponent: over.exponent - s,
        power: over.power / power,
    }
}

// The classes of the node's class, where g(y) is f(residue + power·y) up to a power of p: its roots are the zeros of g modulo `over`. The
// coefficients are divided by the power of p that they have in common.
#[cycle(scan_settle)]
pub(crate) fn settle(
    g: &mut [u32],
    over: PrimePower,
    node: Node,
    out: &mut [Entry],
    k: usize,
) -> Settled
    requires { AtNode g.old over node × (k + most_classes over.p g.old ≤ length out.old) }
    ensures classes { Done (zeros_of g.old over.p over.exponent) over.p node k result
        out.old out.new }
    ensures live { result.live ≡ live_of g.old over.p over.exponent node.left }
{
    if polynomial::all_zero(g) {
        return put_whole(node, 1, out, k);
    }
    if node.left == 0 {
        if g[0] == 0 {
            return put_whole(node, 1, out, k);
        }
        return Settled {
            k,
            whole: false,
            live: 1,
        };
    }
    let rest = make_primitive(g, over);
    scan(g, rest, node, out, k)
}

// The same by the p classes one level below. Only a digit at which h vanishes modulo p can have a zero below it, and its class is live.
#[cycle(scan_settle)]
fn scan(h: &[u32], over: PrimePower, node: Node, out: &mut [Entry], k: usize) -> Settled
    requires { Primitive h.now over node × (k + degree_modulo over.p h.now ≤ length out.old) }
    ensures classes { Done (zeros_of h.now over.p over.exponent) over.p node k result
        out.old out.new }
    ensures live { result.live ≡ live_of h.now over.p over.exponent node.left }
{
    let mut zeros = [0u16; 64];
    let count = digits::zero_digits(h, over.p, &mut zeros);
    let cap = (over.exponent as usize).min(h.len());
    let mut at = k;
    let mut all = true;
    let mut live: u64 = 1;
    for &zero in &zeros[..count] {
        let c = zero as u64;
        let mut table = [0u32; 65];
        let g = &mut table[..cap];
        taylor::shift(h, c, over.p, over.power, g);
        let settled = settle(g, over, child(node, over.p, c), out, at);
        at = settled.k;
        if !settled.whole {
            all = false;
        }
        live += settled.live;
    }
    if all && count as u64 == over.p {
        return put_whole(node, live, out, k);
    }
    Settled {
        k: at,
        whole: false,
        live,
    }
}
