// Marks by trial of all members.
use crate::modular::Class;
use crate::plain;
use crate::problem::Problem;

// The mark of a class: 1 if p divides the derivative of h at none of the members, 0 if at all, 2 if at some.
pub(crate) fn mark(problem: &Problem, class: &Class) -> u8 {
    let x = &problem.x;
    let members = class.members(x.m).count();
    let zeros = class
        .members(x.m)
        .filter(|&r| plain::evaluate(problem.h(), r, x.p).derivative == 0)
        .count();
    if zeros == 0 {
        1
    } else if zeros == members {
        0
    } else {
        2
    }
}
