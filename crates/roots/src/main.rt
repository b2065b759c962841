// The program: a problem text on standard input, its root classes or its refusal on standard output.
#![tactic(auto)]

use std::io;

// It reads 4,096 bytes, or all where there are fewer: the longest problem has 1,399, so a byte past its end is seen.
fn main(rt: HostRuntime) -> io::Result<()> {
    let mut text = [0u8; 4096];
    let n = program::read_full(&mut rt.reader(), &mut text)?;
    let mut out = [0u8; 2925];
    let bytes = program::print_whole(&text[..n], &mut out);
    rt.write_all(&out[..bytes])
}
