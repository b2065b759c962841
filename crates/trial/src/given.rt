// Drawn lists of classes.
use crate::listed::List;
use crate::modular::{is_least, power, residue};
use crate::random::draw;

// The level of the class in the list of number `seed` that has z as a member. A class of level u is listed itself, or its classes of level
// t are, all of them or some, or nothing is.
fn level(seed: u32, z: i32, p: u32, u: u32, t: u32) -> Option<u32> {
    match draw(seed, residue(z as i64, power(p, u)), 6) % 4 {
        0 => None,
        1 => Some(u),
        2 => Some(t),
        _ => (draw(seed, residue(z as i64, power(p, t)), 7) % 2 == 0).then_some(t),
    }
}

// The list of number `seed`, with classes of the levels u and t, u ≤ t; of more than 64 the first. It rises by residue, so the numbers
// from −q to q − 1 are tried in turn, q = p^t.
pub(crate) fn drawn(seed: u32, p: u32, u: u32, t: u32) -> List {
    let mut list = List::new();
    let q = power(p, t).min(512) as i32;
    for z in -q..q {
        if let Some(l) = level(seed, z, p, u, t)
            && list.k < 64
            && is_least(z, power(p, l))
        {
            list.push(z, l);
        }
    }
    list
}
