// The operations for C, one to a file, and those on a system in one. A slice is a pointer and a size_t to C, and an answer a struct by
// value: the number of the rule that refused, 0 where none did, its place, and the operation's values, 0 where it refused. The C header is
// include/wimpleclay.h.
#![tactic(auto)]

mod answers;
mod count_map;
mod counts;
mod fill_map;
mod is_root;
mod next_root;
mod raise;
mod read_problem;
mod solve;
mod system;
mod test_points;
mod write_classes;
