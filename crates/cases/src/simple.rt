// Cases of simple digits (02, 2.14). p^s is the largest power of p, up to pⁿ, that divides every coefficient of f, and g is f divided by
// it. A digit c is simple if p divides g(c) and not g'(c): where s is below n, if p^(s + 1) divides f(c) and not f'(c).
use crate::answer::{Answer, Said};
use crate::case::Case;
use crate::memory::same_list;

// Whether p^t divides every coefficient.
fn divides(p: u32, t: u32, f: &[i64]) -> bool {
    let q = numbers::power(p, t);
    f.iter().all(|a| numbers::reduce(*a, q) == 0)
}

// s, the largest exponent up to n such that p^s divides every coefficient.
fn exponent(f: &[i64], p: u32, n: u32) -> u32 {
    (0..n).find(|s| !divides(p, s + 1, f)).unwrap_or(n)
}

// p^(s + 1), and 0 where s is n.
fn next_power(p: u32, s: u32, n: u32) -> u64 {
    if s < n { numbers::power(p, s + 1) } else { 0 }
}

// a·b + c modulo m, and 0 for m = 0, where a, b and c are below 65,536.
fn multiply_add(a: u64, b: u64, c: u64, m: u64) -> u64 {
    (a % 65536 * (b % 65536) + c % 65536)
        .checked_rem(m)
        .unwrap_or(0)
}

// Whether m divides f(c) and not f'(c), by Horner's rule for both, for m below 65,536; false for m = 0.
fn is_simple(f: &[i64], m: u64, c: u32) -> bool {
    let c = u64::from(c);
    let mut value = 0;
    let mut derivative = 0;
    for a in f.iter().rev() {
        derivative = multiply_add(derivative, c, value, m);
        value = multiply_add(value, c, numbers::reduce(*a, m), m);
    }
    value == 0 && 0 < derivative
}

// How many roots are congruent to c modulo p, for pⁿ up to 1000·p: the test is refused from pⁿ on.
fn roots_above(case: &Case, c: u32) -> u64 {
    let points = (0..1000).map(|i: u32| c.wrapping_add(case.p().wrapping_mul(i)));
    let tested = points.map_while(|r| solver::is_root(case.f.all(), case.p(), case.n(), r).ok());
    tested.filter(|root| *root).count() as u64
}

// Whether the class a/t has members congruent to c modulo p: its least member is, or t is 0.
fn meets(a: i32, t: u8, case: &Case, c: u32) -> bool {
    match classes::next_root(case.p(), case.n(), &[a], &[t], 0) {
        Ok(Some(r)) => {
            t == 0 || numbers::reduce(i64::from(r), u64::from(case.p())) == u64::from(c)
        }
        _ => false,
    }
}

// Whether one class of the list alone has members congruent to c modulo p, and it is a/t.
fn is_only(residues: &[i32], levels: &[u8], case: &Case, c: u32, a: i32, t: u64) -> bool {
    let mut here = residues
        .iter()
        .zip(levels)
        .filter(|(b, u)| meets(**b, **u, case, c));
    match here.next() {
        Some((b, u)) => *b == a && u64::from(*u) == t && here.next().is_none(),
        None => false,
    }
}

// Whether the simple digits are the expected ones, with none left out: after p^s each digit, and residue and level of the one class that
// has members congruent to it. There are p^s roots above each.
fn same(case: &Case, s: u32, m: u64, residues: &[i32], levels: &[u8]) -> bool {
    let f = case.f.all();
    let roots = numbers::power(case.p(), s);
    let expected = &case.expected;
    let mut at = 1;
    for c in 0..case.p() {
        if is_simple(f, m, c) {
            let i = at % 256;
            let (a, t) = (expected.residue(i + 1), expected.item(i + 2));
            let only = is_only(residues, levels, case, c, a, t);
            if expected.item(i) != u64::from(c) || !only || roots_above(case, c) != roots {
                return false;
            }
            at = i + 3;
        }
    }
    at == expected.count
}

// p^s, and the simple digits with their classes.
pub(crate) fn digits(case: &Case) -> Answer {
    let mut residues = [77; 66];
    let mut levels = [77; 66];
    let mut marks = [77; 66];
    let (p, n) = (case.p(), case.n());
    let solved = solver::solve(
        case.f.all(),
        p,
        n,
        &mut residues[..65],
        &mut levels[..65],
        &mut marks[..65],
    );
    match solved {
        Ok(found) => {
            let k = found.classes.min(66);
            let f = case.f.all();
            let s = exponent(f, p, n);
            let m = next_power(p, s, n);
            let first = (0..p).find(|c| is_simple(f, m, *c)).unwrap_or(0);
            Answer {
                said: Ok(Said::Digits(numbers::power(p, s), first)),
                same: same(case, s, m, &residues[..k], &levels[..k]),
            }
        }
        Err(r) => Answer {
            said: Err(r),
            same: same_list(&residues, &levels, &marks, 0, &case.expected),
        },
    }
}
