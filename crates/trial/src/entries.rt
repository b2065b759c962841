// The entries of a list.
use crate::library::Solution;
use crate::listed::List;
use crate::marks;
use crate::modular::{Class, Modulus, is_least, residue};
use crate::plain::Roots;
use crate::problem::Problem;
use crate::tally::{Kind, ListKinds, Tally};

// The largest class of z all of whose members are roots.
fn largest(x: &Modulus, roots: &Roots, z: i32) -> Option<Class> {
    if !roots.contains(residue(z as i64, x.m)) {
        return None;
    }
    (0..=x.n)
        .map(|t| x.class(z as i64, t))
        .find(|class| class.members(x.m).all(|r| roots.contains(r)))
}

// The classes of the roots as they are to be listed. A list rises by residue, so the numbers of least size modulo m are tried in turn.
pub(crate) fn find(x: &Modulus, roots: &Roots) -> List {
    let mut list = List::new();
    let most = (x.m / 2) as i32;
    let least = most - x.m as i32;
    for z in least..=most {
        if let Some(class) = largest(x, roots, z)
            && is_least(z, class.q)
        {
            list.push(z, class.t);
        }
    }
    list
}

// The number of classes, and the residue and level of each, by the kinds of both.
pub(crate) fn compare_unmarked(
    found: &List,
    list: &List,
    classes: Kind,
    entry: Kind,
    tally: &mut Tally,
) {
    tally.compare(classes, found.k == list.k);
    for (i, (z, t)) in found.residues().iter().zip(found.levels()).enumerate() {
        let same = list.residues.get(i) == Some(z) && list.levels.get(i) == Some(t);
        tally.compare(entry, same);
    }
}

// A list and its marks, where these are the roots of the problem that it is to have.
pub(crate) fn compare(
    problem: &Problem,
    roots: &Roots,
    s: &Solution,
    kinds: ListKinds,
    tally: &mut Tally,
) {
    let x = &problem.x;
    let found = find(x, roots);
    compare_unmarked(&found, &s.list, kinds.classes, kinds.entry, tally);
    let classes = found.residues().iter().zip(found.levels());
    for ((&z, &t), &mark) in classes.zip(&s.marks) {
        let wanted = marks::mark(problem, &x.class(z as i64, t as u32));
        tally.compare(kinds.mark, mark == wanted);
    }
}
