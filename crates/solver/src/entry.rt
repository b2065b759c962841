// The entries of the list that is made.
ghost use Rattle.std.specs.Prelude.{◌≡◌, ◌≤◌, ◌<◌};
ghost use Rattle.theory.specs.Centered.{centered};
ghost use Rattle.theory.specs.SignedClass.{signed_class};
ghost use Rattle.solver.specs.inner.Entry.{entry};

// A class: its residue of least size and its level.
#[derive(Clone, Copy)]
pub(crate) struct Entry {
    pub(crate) residue: i32,
    pub(crate) level: u8,
}

// What stands in a table before an entry is put there.
pub(crate) const NONE: Entry = Entry {
    residue: 0,
    level: 0,
};

impl Entry {
    // The class of residue a modulo q, which is p^level.
    pub(crate) fn new(a: u64, q: u64, level: u64) -> Entry
        requires { (a < q) × (q ≤ 4294967295) × (level < 256) }
        ensures { result ≡ entry (signed_class (centered q a) level) }
    {
        Entry {
            residue: numbers::centered(a as u32, q as u32) as i32,
            level: level as u8,
        }
    }
}
