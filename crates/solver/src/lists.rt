// From the entries to the lent lists.
ghost use Rattle.std.specs.Prelude.{◌≡◌, Bool, map, ◌++◌, ℕ, ◌≤◌, length, drop};
ghost use Rattle.theory.specs.Mark.{mark_of};
ghost use Rattle.theory.specs.Shortest.{count};
ghost use Rattle.theory.specs.SignedClass.{natural, residues_of, levels_of};
ghost use Rattle.theory.specs.SignedList.{signed_list};
ghost use Rattle.refusal.specs.Rules.{passes};
ghost use Rattle.solver.specs.Solve.{lists as lists_of, lists_filled};
ghost use Rattle.solver.specs.inner.Entry.{entry as entry_of, class_of};
ghost use Rattle.solver.specs.inner.Reduced.{UsableCoefficients};

use crate::entry::Entry;
use crate::mark;

fn write_residues(entries: &[Entry], residues: &mut [i32])
    requires { length entries.now ≤ length residues.old }
    ensures { residues.new
        ≡ residues_of (map class_of entries.now) ++ drop (length entries.now) residues.old }
{
    for (i, entry) in entries.iter().enumerate() {
        residues[i] = entry.residue;
    }
}

fn write_levels(entries: &[Entry], levels: &mut [u8])
    requires { length entries.now ≤ length levels.old }
    ensures { levels.new
        ≡ levels_of (map class_of entries.now) ++ drop (length entries.now) levels.old }
{
    for (i, entry) in entries.iter().enumerate() {
        levels[i] = entry.level;
    }
}

// Writes these entries, which are the list of a set, and their marks by the coefficients f modulo pⁿ. The number of members.
pub(crate) fn fill(
    f: &[u32],
    p: u32,
    n: u32,
    entries: &[Entry],
    residues: &mut [i32],
    levels: &mut [u8],
    marks: &mut [u8],
) -> u64
    requires { UsableCoefficients f.now p n × (length entries.now ≤ length residues.old)
        × (length entries.now ≤ length levels.old) × (length entries.now ≤ length marks.old) }
    ensures roots { (S : ℕ → Bool) → entries.now ≡ map entry_of (signed_list S p n) → result ≡ count S p n }
    ensures lists { (S : ℕ → Bool) → entries.now ≡ map entry_of (signed_list S p n)
        → lists_of residues.new levels.new marks.new
        ≡ lists_filled passes (signed_list S p n) (map (λ c. mark_of f.now p n (natural p c)) (signed_list S p n))
        (lists_of residues.old levels.old marks.old) }
{
    write_residues(entries, residues);
    write_levels(entries, levels);
    mark::write_marks(f, p as u64, entries, marks);
    numbers::member_total(p, n, &levels[..entries.len()])
}
