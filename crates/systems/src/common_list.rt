// The common root list: everything, cut by the list of each held polynomial.
ghost use Rattle.std.specs.Prelude.{◌≡◌, Bool, List, map, ℕ, ◌^◌, ◌≤◌, pos, length, replicate};
ghost use Rattle.theory.specs.SignedList.{signed_list};
ghost use Rattle.theory.specs.inner.Cut.{both};
ghost use Rattle.numbers.specs.inner.Usable.{Usable};
ghost use Rattle.systems.specs.Model.{Congruence, solves_all};
ghost use Rattle.systems.specs.State.{held_of, held_for, common_for};
ghost use Rattle.systems.specs.inner.Slots.{Polynomials};

use crate::{Common, Held, cut};

// Copies a list into another of its length. A loop, since with `copy_from_slice` the archive for C would need memmove.
pub(crate) fn copy<T: Copy>(from: &[T], to: &mut [T])
    requires { length to.old ≡ length from.now }
    ensures { to.new ≡ from.now }
{
    for (i, x) in from.iter().enumerate() {
        to[i] = *x;
    }
}

impl Common {
    // The list of a system that is not opened.
    pub(crate) const NONE: Common = Common {
        classes: 0,
        roots: 0,
        residues: [0; 1024],
        levels: [0; 1024],
    };

    // The list of everything, 0/0, with the number of residues.
    pub(crate) fn everything(residues: u64) -> Common
        ensures { result ≡ record { classes = 1; roots = residues; residues = replicate 1024 (pos 0); levels = replicate 1024 0 } }
    {
        Common {
            classes: 1,
            roots: residues,
            ..Common::NONE
        }
    }

    // The list cut by that of one polynomial.
    pub(crate) fn cut_by(&self, p: u32, n: u32, held: &Held) -> Common
        ensures { (S T : ℕ → Bool) (tag : ℕ) → Usable p n (p ^ n) → self.now ≡ common_for S p n → held.now ≡ held_for tag T p n
            → length (signed_list S p n) ≤ 1024 → length (signed_list T p n) ≤ 64 → length (signed_list (both S T) p n) ≤ 1024
            → result ≡ common_for (both S T) p n }
    {
        let k = self.classes.min(1024);
        let j = (held.classes as usize).min(64);
        let mut residues = [0i32; 1024];
        let mut levels = [0u8; 1024];
        let classes = cut::cut(
            p,
            &self.residues[..k],
            &self.levels[..k],
            &held.residues[..j],
            &held.levels[..j],
            &mut residues,
            &mut levels,
        );
        let roots = numbers::member_total(p, n, &levels[..classes]);
        Common {
            classes,
            roots,
            residues,
            levels,
        }
    }

    // Everything cut by the lists in these slots, one after the other.
    pub(crate) fn cut_by_all(p: u32, n: u32, held: &[Held]) -> Common
        ensures { (C : List Congruence) → Usable p n (p ^ n) → Polynomials C → length C ≤ 16
            → held.now ≡ map (held_of p n) C → result ≡ common_for (solves_all p n C) p n }
    {
        let mut common = Common::everything(numbers::power(p, n));
        for h in held {
            common = common.cut_by(p, n, h);
        }
        common
    }
}
