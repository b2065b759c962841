// What the program prints for what it reads: all that it does but writing.
#![tactic(auto)]

ghost use Rattle.std.specs.Prelude.{◌≡◌, ◌++◌, ◌≤◌, ◌<◌, length, take, drop};
ghost use Rattle.refusal.specs.Rules.{filled};
ghost use Rattle.program.specs.Printed.{solved_text, printed_text, buffer_verdict, written_in};

use refusal::Refusal;

mod reading;

pub use reading::read_full;

// What is printed for a problem text, in the first bytes of `out`: the block of its root classes, or the line of the refusal; later bytes
// keep their content. It answers how many bytes it wrote. Where `out` has fewer bytes than that, it is refused by rule 12, with their
// number as the place, and nothing is written.
pub fn print(text: &[u8], out: &mut [u8]) -> Result<usize, Refusal>
    ensures answer { result ≡ written_in (printed_text text.now) (length out.old) }
    ensures out { out.new
        ≡ filled (buffer_verdict (printed_text text.now) (length out.old)) (printed_text text.now)
        out.old }
{
    match text::read_problem(text) {
        Ok(problem) => {
            let f = &problem.coefficients[..problem.count];
            print_problem(f, problem.p, problem.n, out)
        }
        Err(r) => writer::write_refusal(r, out),
    }
}

// The same for a problem that is read. 64 slots are enough for the classes of any polynomial with 65 coefficients.
fn print_problem(coefficients: &[i64], p: u32, n: u32, out: &mut [u8]) -> Result<usize, Refusal>
    requires { (0 < length coefficients.now) × (length coefficients.now ≤ 65) }
    ensures answer { result ≡ written_in (solved_text coefficients.now p n) (length out.old) }
    ensures out { out.new
        ≡ filled (buffer_verdict (solved_text coefficients.now p n) (length out.old))
        (solved_text coefficients.now p n) out.old }
{
    let mut residues = [0i32; 64];
    let mut levels = [0u8; 64];
    let mut marks = [0u8; 64];
    match solver::solve(coefficients, p, n, &mut residues, &mut levels, &mut marks) {
        Ok(found) => {
            let k = found.classes;
            writer::write_classes(p, n, &residues[..k], &levels[..k], &marks[..k], out)
        }
        Err(refusal) => writer::write_refusal(refusal, out),
    }
}

// The same in a buffer that is long enough whatever is printed: a line, and 64 classes. It returns how many bytes are printed.
pub fn print_whole(text: &[u8], out: &mut [u8; 2925]) -> usize
    ensures answer { result ≡ length (printed_text text.now) }
    ensures out { out.new
        ≡ printed_text text.now ++ drop (length (printed_text text.now)) out.old }
    ensures counts { (result ≤ length out.new) × (result ≡ length (take result out.new)) }
{
    print(text, out).unwrap()
}
