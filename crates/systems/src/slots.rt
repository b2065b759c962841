// The slots of the held polynomials.
ghost use Rattle.std.specs.Prelude.{◌≡◌, ◌==◌, [], ◌∷◌, ◌++◌, ◌^◌, ◌≤◌, ◌<◌, length, get_or, position, remove, replicate};
ghost use Rattle.numbers.specs.inner.Usable.{Usable};
ghost use Rattle.systems.specs.Model.{congruence};
ghost use Rattle.systems.specs.State.{blank as blank_of, held_of};

use crate::{Common, Held, System};
use refusal::Refusal;

// The index of the first of these slots with this tag.
pub(crate) fn index_of(held: &[Held], tag: u32) -> Option<usize>
    ensures { result ≡ position (λ h. h.tag == tag) held.now }
{
    held.iter().position(|h| h.tag == tag)
}

// Moves the slots after this one up by one; the last keeps its content. A loop, since with `rotate_left` the archive for C would need
// memmove.
pub(crate) fn close_gap(held: &mut [Held; 16], at: usize)
    requires { at < 16 }
    ensures { held.new ≡ remove held.old at ++ (get_or held.old 15 blank_of ∷ []) }
{
    for i in at..15 {
        held[i] = held[i + 1];
    }
}

impl Held {
    // A slot that is not used.
    pub(crate) const BLANK: Held = Held {
        tag: 0,
        classes: 0,
        residues: [0; 64],
        levels: [0; 64],
    };

    // The slot of a polynomial: its root list modulo pⁿ.
    pub(crate) fn solved(tag: u32, coefficients: &[i64], p: u32, n: u32) -> Result<Held, Refusal>
        ensures { Usable p n (p ^ n) → 0 < length coefficients.now → length coefficients.now ≤ 65
            → result ≡ Ok (held_of p n (congruence tag coefficients.now)) }
    {
        let mut residues = [0i32; 64];
        let mut levels = [0u8; 64];
        let mut marks = [0u8; 64];
        let found = solver::solve(coefficients, p, n, &mut residues, &mut levels, &mut marks)?;
        Ok(Held {
            tag,
            classes: found.classes.min(64) as u32,
            residues,
            levels,
        })
    }
}

impl System {
    // The system that holds no polynomial, with this common list.
    pub(crate) fn empty(p: u32, n: u32, common: Common) -> System
        ensures { result ≡ record { p = p; n = n; count = 0; held = replicate 16 blank_of; common = common } }
    {
        System {
            p,
            n,
            count: 0,
            held: [Held::BLANK; 16],
            common,
        }
    }
}
