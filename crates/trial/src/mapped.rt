// The root map and its count against the roots.
use crate::library;
use crate::listed::List;
use crate::problem::Problem;
use crate::tally::{Kind, Tally};

// The bit of residue r.
fn bit(map: &[u8], r: u32) -> bool {
    map.get((r / 8) as usize)
        .is_some_and(|byte| *byte >> (r % 8) & 1 == 1)
}

// Compares the count of a map.
fn compare_count(problem: &Problem, map: &[u8], tally: &mut Tally) {
    let count = library::count(map, &problem.x);
    tally.compare(Kind::Ones, count == Ok(problem.roots.count));
}

// The map of the classes, on bytes that are 255 before the call, and its count without and with ones from bit m on. The spare bits after
// the first m are zero, as the table of roots is.
pub(crate) fn compare(problem: &Problem, list: &List, tally: &mut Tally) {
    let m = problem.x.m;
    let bytes = (m + 7) / 8;
    let mut map = [255; 64];
    let map = &mut map[..bytes as usize];
    tally.compare(Kind::Map, library::fill(list, &problem.x, map).is_ok());
    for r in 0..8 * bytes {
        tally.compare(Kind::Map, bit(map, r) == problem.roots.contains(r));
    }
    compare_count(problem, map, tally);
    if let Some(last) = map.get_mut((m / 8) as usize) {
        *last |= 255 << (m % 8);
    }
    compare_count(problem, map, tally);
}
