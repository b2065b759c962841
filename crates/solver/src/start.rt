// The recursion over the digits started at each of given classes: what lies above them is not scanned again.
ghost use Rattle.std.specs.Prelude.{◌≡◌, ◌+◌, ◌≤◌, ◌<◌, length};
ghost use Rattle.theory.specs.Polynomial.{zeros as zeros_of};
ghost use Rattle.theory.specs.SignedClass.{signed_class, IsSignedClass, natural, naturals};
ghost use Rattle.theory.specs.inner.Started.{tree_below, started};
ghost use Rattle.classes.specs.Rule7.{classes_of};
ghost use Rattle.classes.specs.inner.Usable.{Faultless};
ghost use Rattle.solver.specs.inner.Recursion.{IsPrimePower, Appended};
ghost use Rattle.solver.specs.inner.Start.{node_at, shifted_length, entries_of};

use crate::entry::Entry;
use crate::tree::{Node, PrimePower};
use crate::{taylor, tree};

// The node of a given class, with the levels down to the modulus below it.
fn node_at(over: PrimePower, residue: i32, level: u8) -> Node
    requires { IsPrimePower over × IsSignedClass over.p over.exponent (signed_class residue level) }
    ensures { result ≡ node_at over.p over.exponent (natural over.p (signed_class residue level)) }
{
    let power = numbers::power(over.p as u32, level as u32);
    Node {
        residue: numbers::reduce(residue as i64, power),
        power,
        level: level as u64,
        left: over.exponent - level as u64,
    }
}

// How many coefficients of f(a + p^t·y) modulo p^e are not zero at most, of c: where t is not 0, p^e divides those from index e on.
fn shifted_length(c: usize, e: u64, t: u64) -> usize
    ensures { result ≡ shifted_length c e t }
{
    if t == 0 {
        return c;
    }
    (e as usize).min(c)
}

// Adds the classes of the zeros of f that lie in the class residue/level after the first k; their number then.
fn start(f: &[u32], over: PrimePower, residue: i32, level: u8, out: &mut [Entry], k: usize) -> usize
    requires { IsPrimePower over × (0 < length f.now) × (length f.now ≤ 65)
        × IsSignedClass over.p over.exponent (signed_class residue level) × (k + 64 ≤ length out.old) }
    ensures { Appended (entries_of over.p (tree_below (zeros_of f.now over.p over.exponent) over.p over.exponent
        (natural over.p (signed_class residue level)))) k result out.old out.new }
{
    let node = node_at(over, residue, level);
    let len = shifted_length(f.len(), over.exponent, node.level);
    let mut table = [0u32; 65];
    let g = &mut table[..len];
    taylor::shift(f, node.residue, node.power, over.power, g);
    let settled = tree::settle(g, over, node, out, k);
    settled.k
}

// Puts the classes of the zeros of f that lie in each given class, one given class after the other, into the first entries of `out`; their
// number. One class needs room for 64 more while it is searched.
pub(crate) fn start_all(
    f: &[u32],
    over: PrimePower,
    residues: &[i32],
    levels: &[u8],
    out: &mut [Entry],
) -> usize
    requires { IsPrimePower over × (0 < length f.now) × (length f.now ≤ 65) × (length residues.now ≡ length levels.now)
        × Faultless over.p over.exponent (classes_of residues.now levels.now)
        × (length (started (zeros_of f.now over.p over.exponent) over.p over.exponent
        (naturals over.p (classes_of residues.now levels.now))) + 64 ≤ length out.old) }
    ensures { Appended (entries_of over.p (started (zeros_of f.now over.p over.exponent) over.p over.exponent
        (naturals over.p (classes_of residues.now levels.now)))) 0 result out.old out.new }
{
    let mut k: usize = 0;
    for (residue, level) in residues.iter().zip(levels) {
        k = start(f, over, *residue, *level, out, k);
    }
    k
}
