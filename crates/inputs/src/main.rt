// Runs the program on the texts of standard input and prints for each its number and what the program prints for it: refusal number and
// place, or the classes. A text ends before a =, which a note follows to the line's end.
#![tactic(auto)]

ghost use Rattle.std.specs.Prelude.{◌≤◌, length};

use std::io;

// Prints the number of a text and what is printed for it.
fn show(rt: &impl Print, number: usize, text: &[u8]) -> io::Result<()> {
    let mut out = [0u8; 2925];
    let bytes = program::print_whole(text, &mut out);
    print!(rt; "{number}")?;
    rt.write_all(&out[..bytes])
}

// The place of the next such byte from a place on, and the end where there is none.
fn place_of(byte: u8, input: &[u8], from: usize) -> usize
    requires { from ≤ length input.now }
    ensures { (from ≤ result) × (result ≤ length input.now) }
{
    input[from..]
        .iter()
        .position(|b| *b == byte)
        .map_or(input.len(), |i| from + i)
}

// All texts, of which there are at most a thousand.
fn show_all(rt: &impl Print, input: &[u8]) -> io::Result<()> {
    let mut at = 0;
    for number in 1..1001 {
        if input.len() <= at {
            break;
        }
        let end = place_of(b'=', input, at);
        show(rt, number, &input[at..end])?;
        at = place_of(b'\n', input, end) % 65536 + 1;
    }
    Ok(())
}

fn main(rt: HostRuntime) -> io::Result<()> {
    let mut input = [0u8; 65536];
    let n = program::read_full(&mut rt.reader(), &mut input)?;
    show_all(&rt, &input[..n])
}
