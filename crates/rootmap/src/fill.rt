// Setting the bits of the members of classes.
ghost use Rattle.std.specs.Prelude.{◌≡◌, ◌&&◌, ◌*◌, ◌%◌, ◌^◌, ◌≤◌, ◌<◌, eqb, ltb, length};
ghost use Rattle.theory.specs.Class.{is_member};
ghost use Rattle.theory.specs.ClassList.{members};
ghost use Rattle.theory.specs.SignedClass.{signed_class, natural, naturals};
ghost use Rattle.rootmap.specs.inner.Bits.{Added};
ghost use Rattle.classes.specs.Rule7.{classes_of};
ghost use Rattle.classes.specs.inner.Usable.{UsableList};

use crate::bits;

// Sets the bits of a, a + q, a + 2·q, … below m.
fn set_members(a: usize, q: usize, m: usize, map: &mut [u8])
    requires { (a < q) × (q ≤ 4294967295) × (m ≤ 524288) × (m ≤ 8 * length map.old) }
    ensures { Added (λ r. ltb r m && eqb (r % q) a) map.old map.new }
{
    for r in (a..m).step_by(q) {
        bits::set_bit(map, r);
    }
}

// Sets the bits of the members below m of the class a/t, the first of which is a modulo p^t.
fn set_class(p: u32, a: i32, t: u8, m: usize, map: &mut [u8])
    requires { (0 < p) × (p ^ t ≤ 4294967295) × (m ≤ 524288) × (m ≤ 8 * length map.old) }
    ensures { Added (λ r. ltb r m && is_member p (natural p (signed_class a t)) r) map.old map.new }
{
    let q = numbers::power(p, t as u32);
    let r = numbers::reduce(a as i64, q);
    set_members(r as usize, q as usize, m, map);
}

// Sets the bits of the members below m of all classes.
pub(crate) fn set_classes(p: u32, n: u32, residues: &[i32], levels: &[u8], m: usize, map: &mut [u8])
    requires { UsableList p n residues.now levels.now m × (m ≤ 524288) × (m ≤ 8 * length map.old) }
    ensures { Added (λ r. ltb r m && members p (naturals p (classes_of residues.now levels.now)) r)
        map.old map.new }
{
    for (&a, &t) in residues.iter().zip(levels) {
        set_class(p, a, t, m, map);
    }
}
