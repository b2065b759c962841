// The report: a text of problems on standard input, of any length; on standard output a line of counts for each, and a last line.
// `turn` is one turn, as `Run` of the specs has it: a step at the front of the bytes read writes a line, or the line that ends the report;
// where it waits, one read adds what there is, and a read of nothing is the end of the text.
#![tactic(auto)]

ghost use Rattle.std.specs.Prelude.{◌≡◌, ◌+◌, ◌≤◌, ◌<◌, length};
ghost use Rattle.report.specs.Run.{wait};
ghost use Rattle.report.specs.inner.Outcomes.{outcome};
ghost use Rattle.report.specs.inner.Places.{Placed, unused, Going, Turned};

use std::io;
use std::io::Read;
use step::{Stepped, Totals};

mod step;

// The totals, and the part of the buffer that holds the bytes that are read and not yet used.
#[derive(Clone, Copy)]
struct Place {
    totals: Totals,
    from: usize,
    to: usize,
}

// Writes a line, unless a write or a read has failed before. `done` keeps the first error, which `main` returns.
fn write(rt: &impl Print, line: &[u8], done: &mut io::Result<()>) {
    if done.is_ok() {
        *done = rt.write_all(line);
    }
}

// One read, which gives a number of the buffer's first bytes; one that fails gives none.
fn read(input: &mut impl Read, buffer: &mut [u8], done: &mut io::Result<()>) -> usize
    ensures { result ≤ length buffer.new }
{
    match input.read(buffer) {
        Ok(n) => n,
        Err(e) => {
            if done.is_ok() {
                *done = Err(e);
            }
            0
        }
    }
}

// One turn: a problem's line, the line that ends the report, or a read.
fn turn(
    rt: &impl Print,
    input: &mut impl Read,
    done: &mut io::Result<()>,
    at: Place,
    buffer: &mut [u8],
) -> Option<Place>
    requires value { 65536 ≡ length buffer.old }
    requires placed { Placed at }
    ensures going { Going at result }
    ensures turned { Turned at.totals (unused at buffer.old) result buffer.new }
{
    let mut line = [0u8; 641];
    match step::step(at.totals, &buffer[at.from..at.to], &mut line) {
        Stepped::Line { totals, end, bytes } => {
            write(rt, &line[..bytes], done);
            Some(Place {
                totals,
                from: at.from + end,
                to: at.to,
            })
        }
        Stepped::Stop(bytes) => {
            write(rt, &line[..bytes], done);
            None
        }
        Stepped::Wait => more(rt, input, done, at, buffer),
    }
}

// The bytes moved to the front of the buffer, and those that a read adds behind them; or the end of the text.
fn more(
    rt: &impl Print,
    input: &mut impl Read,
    done: &mut io::Result<()>,
    at: Place,
    buffer: &mut [u8],
) -> Option<Place>
    requires value { 65536 ≡ length buffer.old }
    requires placed { Placed at }
    requires to_bound { at.to < at.from + 1399 }
    requires buffer_value { outcome at.totals (unused at buffer.old) ≡ wait }
    ensures going { Going at result }
    ensures turned { Turned at.totals (unused at buffer.old) result buffer.new }
{
    buffer.copy_within(at.from..at.to, 0);
    let held = at.to - at.from;
    let n = read(input, &mut buffer[held..], done);
    if n == 0 {
        let mut line = [0u8; 641];
        let bytes = step::finish(at.totals, &buffer[..held], &mut line);
        write(rt, &line[..bytes], done);
        return None;
    }
    Some(Place {
        totals: at.totals,
        from: 0,
        to: held + n,
    })
}

// The turns end: each uses up one of at most 1,000 problems, or reads bytes of one that has fewer than 1,399.
fn main(rt: HostRuntime) -> io::Result<()> {
    let mut input = rt.reader();
    let mut done = Ok(());
    let mut space = [0u8; 65536];
    let buffer: &mut [u8] = &mut space;
    let mut at = Place {
        totals: Totals {
            at: 0,
            problems: 0,
            rootless: 0,
            roots: 0,
        },
        from: 0,
        to: 0,
    };
    while let Some(next) = turn(&rt, &mut input, &mut done, at, buffer) {
        at = next;
    }
    done
}
