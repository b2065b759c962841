// Small polynomials against plain trial of residues: every answer of the solver, of the test of one and of many points, of next and of the
// map is compared with what evaluation at each residue gives, so are the counts at every precision and lists raised to a higher one, and
// the number of live classes with a count by its definition. The roots above each simple digit are counted, and the class that holds them
// is looked at. In rows of calls on a system each call and the common list after it are compared with a plain set of tags and the residues
// that solve all. The last line says how many answers differ.
#![tactic(auto)]

mod bound;
mod coefficients;
mod comparison;
mod content;
mod counts;
mod drawn;
mod entries;
mod factors;
mod given;
mod held;
mod library;
mod lifts;
mod listed;
mod live;
mod mapped;
mod marks;
mod modular;
mod multiples;
mod plain;
mod points;
mod problem;
mod products;
mod raised;
mod random;
mod rows;
mod small;
mod tally;

use modular::Modulus;
use std::io;
use tally::Tally;

// The powers below 512 of eight primes, each as p, n, and the number of coefficients up to which all polynomials are tried. A product of
// 64 factors can have 64 classes modulo 67 and 509.
const ROWS: [(u32, u32, u32); 25] = [
    (2, 1, 8),
    (2, 2, 5),
    (2, 3, 4),
    (2, 4, 3),
    (2, 5, 3),
    (2, 6, 2),
    (2, 7, 0),
    (2, 8, 0),
    (3, 1, 6),
    (3, 2, 4),
    (3, 3, 3),
    (3, 4, 2),
    (3, 5, 0),
    (5, 1, 5),
    (5, 2, 3),
    (5, 3, 0),
    (7, 1, 4),
    (7, 2, 2),
    (7, 3, 0),
    (11, 1, 4),
    (11, 2, 0),
    (13, 1, 3),
    (13, 2, 0),
    (67, 1, 0),
    (509, 1, 0),
];

// All polynomials with 1 to c coefficients, and for each j below n products of 16 kinds times p^j and 40 drawn polynomials, alone and
// times p^j.
fn families(x: &Modulus, c: u32, tally: &mut Tally) {
    for i in 0..40 * x.n {
        if i < c {
            small::all(x, i + 1, tally);
        }
        if i / 16 < x.n {
            products::all(i % 16, i / 16, x, tally);
        }
        drawn::pair(i, i / 40, x, tally);
    }
}

fn main(rt: HostRuntime) -> io::Result<()> {
    let mut tally = Tally::new();
    for (p, n, c) in ROWS {
        families(&Modulus::new(p, n), c, &mut tally);
    }
    tally.print(&rt)
}
