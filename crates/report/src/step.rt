// A step of the report: what the bytes that are read show of the problem at their front.
ghost use Rattle.std.specs.Prelude.{◌≡◌, ◌+◌, ◌≤◌, ◌<◌, length, take};
ghost use Rattle.refusal.specs.Number.{place_of};
ghost use Rattle.writer.specs.Output.{refusal_line};
ghost use Rattle.report.specs.Report.{after as after_of, from_start};
ghost use Rattle.report.specs.inner.Outcomes.{outcome_of, outcome, ending, step_of, line_of, with_line, Small, Counted, After};

use refusal::Refusal;

// The offset from the start of the text, and what the last line says: the number of problems so far, of those without a root, and of all
// their roots.
#[derive(Clone, Copy)]
pub(crate) struct Totals {
    pub(crate) at: usize,
    pub(crate) problems: u64,
    pub(crate) rootless: u64,
    pub(crate) roots: u64,
}

// What a step did.
#[derive(Clone, Copy)]
pub(crate) enum Stepped {
    // a problem's line, of so many bytes; the problem is the first `end` bytes
    Line {
        totals: Totals,
        end: usize,
        bytes: usize,
    },
    // the line that ends the report, of so many bytes
    Stop(usize),
    // no line: more bytes of the text are wanted, or its end
    Wait,
}

// The totals after a problem more.
fn after(totals: Totals, bytes: usize, roots: u64) -> Totals
    requires small { Small totals }
    requires problems_bound { (totals.problems < 1000) × ((bytes ≤ 1399) × (roots ≤ 4294967295)) }
    ensures { result ≡ after_of totals bytes roots }
{
    Totals {
        at: totals.at + bytes,
        problems: totals.problems + 1,
        rootless: totals.rootless + u64::from(roots == 0),
        roots: totals.roots + roots,
    }
}

// A refusal of a problem that starts at this offset, with its place from the start of the text.
fn from_start(at: usize, refusal: Refusal) -> Refusal
    requires { (at ≤ 1399000) × (place_of refusal ≤ 1399) }
    ensures { result ≡ from_start at refusal }
{
    if refusal.number() == 1 {
        return Refusal::Form(at + refusal.place());
    }
    refusal
}

// A refusal's line. It returns how many bytes it has.
fn put_refusal(refusal: Refusal, line: &mut [u8; 641]) -> usize
    ensures answer { result ≡ length (refusal_line refusal) }
    ensures line { line.new ≡ with_line (refusal_line refusal) line.old }
    ensures counts { Counted result line.new }
{
    writer::write_refusal(refusal, line).unwrap()
}

// The line of a problem with these coefficients, p and n, whose text ends there: its counts, or the refusal of p and n.
fn solve(
    totals: Totals,
    coefficients: &[i64],
    p: u32,
    n: u32,
    end: usize,
    line: &mut [u8; 641],
) -> Stepped
    requires small { Small totals }
    requires problems_bound { (totals.problems < 1000) × (end ≤ 1399) }
    requires coefficients_nonzero { (0 < length coefficients.now) × (length coefficients.now ≤ 65) }
    ensures answer { result ≡ step_of (outcome_of totals coefficients.now p n end) }
    ensures line { line.new ≡ line_of (outcome_of totals coefficients.now p n end) line.old }
    ensures after { After totals result end line.new }
{
    let mut row = [0u64; 32];
    match solver::counts(coefficients, p, n, &mut row) {
        Ok(()) => {
            let last = n as usize;
            let bytes = writer::write_row(&row[..last + 1], line);
            Stepped::Line {
                totals: after(totals, end, row[last]),
                end,
                bytes,
            }
        }
        Err(r) => Stepped::Stop(put_refusal(r, line)),
    }
}

// The problem at the front of the bytes: its line is written to `line`, or the line of the refusal that ends the report; or more bytes are
// wanted.
pub(crate) fn step(totals: Totals, bytes: &[u8], line: &mut [u8; 641]) -> Stepped
    requires { Small totals }
    ensures answer { result ≡ step_of (outcome totals bytes.now) }
    ensures line { line.new ≡ line_of (outcome totals bytes.now) line.old }
    ensures after { After totals result (length bytes.now) line.new }
{
    if bytes.is_empty() {
        return Stepped::Wait;
    }
    if 1000 <= totals.problems {
        return Stepped::Stop(put_refusal(Refusal::TooManyProblems(totals.at), line));
    }
    match text::read_problem_at(bytes, 0) {
        Ok(problem) => {
            let f = &problem.coefficients[..problem.count];
            solve(totals, f, problem.p, problem.n, problem.end, line)
        }
        Err(_) if bytes.len() < 1399 => Stepped::Wait,
        Err(r) => Stepped::Stop(put_refusal(from_start(totals.at, r), line)),
    }
}

// The end of the text, where these bytes are left: the last line, or the refusal of a problem that is not whole. It returns how many bytes
// the line has.
pub(crate) fn finish(totals: Totals, bytes: &[u8], line: &mut [u8; 641]) -> usize
    requires { Small totals }
    ensures answer { take result line.new ≡ ending totals bytes.now }
    ensures counts { Counted result line.new }
{
    if bytes.is_empty() {
        let row = [totals.problems, totals.rootless, totals.roots];
        return writer::write_row(&row, line);
    }
    match text::read_problem_at(bytes, 0) {
        Ok(_) => 0,
        Err(r) => put_refusal(from_start(totals.at, r), line),
    }
}
