// Lent class lists: rule 7, and the next root.
#![tactic(auto)]

ghost use Rattle.std.specs.Prelude.{◌≡◌};
ghost use Rattle.classes.specs.Checked.{checked_of, marked_checked_of};

use refusal::Refusal;

mod fault;
mod next;
mod overlap;
mod usable;

pub use next::next_root;

// Whether p, n and a list of classes are usable: pⁿ, or the refusal. Rules 4, 14, 5, 6 and 7.
pub fn check_list(p: u32, n: u32, residues: &[i32], levels: &[u8]) -> Result<u64, Refusal>
    ensures { result ≡ checked_of p n residues.now levels.now }
{
    let m = numbers::check_modulus(p, n)?;
    if residues.len() != levels.len() {
        return Err(Refusal::Lengths(residues.len().min(levels.len())));
    }
    let i = fault::first_fault(p, n, residues, levels);
    if i < residues.len() {
        return Err(Refusal::Entry(i));
    }
    Ok(m)
}

// The same for a list with marks, of which none may be above 2.
pub fn check_marked_list(
    p: u32,
    n: u32,
    residues: &[i32],
    levels: &[u8],
    marks: &[u8],
) -> Result<u64, Refusal>
    ensures { result ≡ marked_checked_of p n residues.now levels.now marks.now }
{
    let m = numbers::check_modulus(p, n)?;
    let k = residues.len();
    if k != levels.len() || k != marks.len() {
        return Err(Refusal::Lengths(k.min(levels.len()).min(marks.len())));
    }
    let i = fault::first_fault(p, n, residues, levels);
    let j = fault::first_high_mark(marks).unwrap_or(k);
    let first = i.min(j);
    if first < k {
        return Err(Refusal::Entry(first));
    }
    Ok(m)
}
