// Many points in one call: every residue, and some points that are too large.
use crate::library;
use crate::plain::Roots;
use crate::problem::Problem;
use crate::tally::{Kind, Tally};
use solver::Query;

// The records of the eight points from r on, the last first, each with the answer 77.
fn records(r: u32) -> [Query; 8] {
    [7, 6, 5, 4, 3, 2, 1, 0].map(|i| Query {
        point: r.saturating_add(i),
        answer: 77,
    })
}

// The answer to a point by trial: 8 where it is not below m.
fn answer(point: u32, m: u32, roots: &Roots) -> u32 {
    if point < m {
        roots.contains(point) as u32
    } else {
        8
    }
}

pub(crate) fn compare(problem: &Problem, tally: &mut Tally) {
    let x = &problem.x;
    for i in 0..=x.m / 8 {
        let given = records(8 * i);
        let Ok(queries) = library::test_eight(problem.f(), x, given) else {
            tally.compare(Kind::Point, false);
            continue;
        };
        for (query, old) in queries.iter().zip(&given) {
            let wanted = answer(old.point, x.m, &problem.roots);
            tally.compare(
                Kind::Point,
                query.point == old.point && query.answer == wanted,
            );
        }
    }
}
