// The Taylor shift h(c + q·y) modulo m, its first coefficients: where m divides q^k, those from index k on vanish.
ghost use Rattle.std.specs.Prelude.{◌≡◌, ◌∷◌, ℕ, ◌+◌, ◌*◌, ◌%◌, ◌^◌, ◌≤◌, ◌<◌, length, get_or};
ghost use Rattle.theory.specs.Taylor.{taylor as taylor_of, shifted as shifted_of};
ghost use Rattle.theory.specs.inner.Polynomial.{coef};
ghost use Rattle.theory.specs.inner.Overwritten.{Overwritten};
ghost use Rattle.solver.specs.inner.Table.{Residues};

// a + (c + y)·g(y), its first `top` coefficients: one step of Horner's rule on polynomials.
fn horner_step(g: &mut [u32], top: usize, a: u64, c: u64, m: u64)
    requires { (0 < top) × (top ≤ length g.old) × (0 < m) × (m ≤ 4294967295) × (a < 4294967296) × (c < 4294967296) }
    ensures { Overwritten (λ i. (coef (a ∷ g.old) i + c * coef g.old i) % m) 0 top
        g.old g.new }
{
    for i in (1..top).rev() {
        g[i] = ((g[i - 1] as u64 + c * g[i] as u64) % m) as u32;
    }
    g[0] = ((a + c * g[0] as u64) % m) as u32;
}

// h(c + y) into g, which holds zeros. With k coefficients of h done there are k coefficients, so the next step makes at most k + 1.
fn taylor(h: &[u32], c: u64, m: u64, g: &mut [u32])
    requires { (0 < length g.old) × (0 < m) × (m ≤ 4294967295) × (c < 4294967296) × ((i : ℕ) → get_or g.old i 0 ≡ 0) }
    ensures { Residues m g.new (taylor_of c h.now) }
{
    for j in (0..h.len()).rev() {
        let top = g.len().min(h.len() - j);
        horner_step(g, top, h[j] as u64, c, m);
    }
}

// g(q·y)
fn stretch(g: &mut [u32], q: u64, m: u64)
    requires { (0 < m) × (m ≤ 4294967295) × (q < 4294967296) }
    ensures { Overwritten (λ i. q ^ i * coef g.old i % m) 0 (length g.old) g.old g.new }
{
    let mut power: u64 = 1;
    for a in g.iter_mut() {
        *a = (*a as u64 * power % m) as u32;
        power = power * q % m;
    }
}

// h(c + q·y) into g, which holds zeros.
pub(crate) fn shift(h: &[u32], c: u64, q: u64, m: u64, g: &mut [u32])
    requires { (0 < length g.old) × (0 < m) × (m ≤ 4294967295) × (c < 4294967296) × (q < 4294967296)
        × ((i : ℕ) → get_or g.old i 0 ≡ 0) }
    ensures { Residues m g.new (shifted_of c q h.now) }
{
    taylor(h, c, m, g);
    stretch(g, q, m);
}
