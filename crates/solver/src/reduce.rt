// Coefficients modulo m.
ghost use Rattle.std.specs.Prelude.{◌≡◌, map, ◌≤◌, ◌<◌, length, take};
ghost use Rattle.theory.specs.Polynomial.{reduce};

// The coefficients modulo m as a table of 65, zero after the last.
pub(crate) fn reduced(coefficients: &[i64], m: u64) -> [u32; 65]
    requires { (0 < m) × (m ≤ 4294967295) × (length coefficients.now ≤ 65) }
    ensures { take (length coefficients.now) result ≡ map (reduce m) coefficients.now }
{
    let mut table = [0u32; 65];
    for (i, a) in coefficients.iter().enumerate() {
        table[i] = numbers::reduce(*a, m) as u32;
    }
    table
}
