// The bit of a residue in a map: weight 2^(r mod 8) in byte r div 8.
ghost use Rattle.std.specs.Prelude.{◌*◌, ◌<◌, eqb, length};
ghost use Rattle.rootmap.specs.inner.Bits.{Added};

// Sets the bit of residue r.
pub(crate) fn set_bit(map: &mut [u8], r: usize)
    requires { r < 8 * length map.old }
    ensures { Added (λ s. eqb s r) map.old map.new }
{
    map[r / 8] |= 1u8 << (r % 8);
}
