// Numbers that look random and are the same in every run.
ghost use Rattle.std.specs.Prelude.{◌<◌};

// One step of a linear congruential generator.
fn step(x: u64) -> u64
    ensures { result < 2147483648 }
{
    (x % 2147483648 * 1103515245 + 12345) % 2147483648
}

// A number below 2^23 from three others.
pub(crate) fn draw(a: u32, b: u32, c: u32) -> u32 {
    let x = step(a as u64);
    let y = step(step(x + b as u64) + c as u64);
    (step(y) / 256) as u32
}
