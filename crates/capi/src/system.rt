// Systems of congruences for C.
ghost use Rattle.std.specs.Prelude.{◌≡◌, length};
ghost use Rattle.refusal.specs.Rules.{value_or};
ghost use Rattle.systems.specs.Model.{Model};
ghost use Rattle.systems.specs.Calls.{open_verdict, fetched_of, fetched_residues, fetched_levels};
ghost use Rattle.systems.specs.State.{Holds, opened_into, added_of, withdrawn_of};
ghost use Rattle.capi.specs.Answers.{done_answer, list_answer};

use crate::answers::{DoneAnswer, ListAnswer};
use refusal::Refusal;
use systems::System;

// Opens the lent system.
fn open(p: u32, n: u32, system: &mut System) -> Result<(), Refusal>
    ensures answer { result ≡ value_or (open_verdict p n) tt }
    ensures system { system.new ≡ opened_into p n system.old }
{
    *system = System::open(p, n)?;
    Ok(())
}

// `System::open`. Rules 4, 14 and 5; a refusal alters nothing.
#[unsafe(no_mangle)]
pub extern "C" fn wimpleclay_system_open(p: u32, n: u32, system: &mut System) -> DoneAnswer
    ensures answer { result ≡ done_answer (value_or (open_verdict p n) tt) }
    ensures system { system.new ≡ opened_into p n system.old }
{
    open(p, n, system).into()
}

// `System::add`. Rules 2, 3, 15 and 16; a refusal alters nothing.
#[unsafe(no_mangle)]
pub extern "C" fn wimpleclay_system_add(
    system: &mut System,
    tag: u32,
    coefficients: &[i64],
) -> DoneAnswer
    ensures answer { (M : Model) → Holds system.old M
        → result ≡ done_answer (added_of M tag coefficients.now).outcome }
    ensures system { (M : Model) → Holds system.old M
        → system.new ≡ (added_of M tag coefficients.now).system }
{
    system.add(tag, coefficients).into()
}

// `System::withdraw`. Rule 15; a refusal alters nothing.
#[unsafe(no_mangle)]
pub extern "C" fn wimpleclay_system_withdraw(system: &mut System, tag: u32) -> DoneAnswer
    ensures answer { (M : Model) → Holds system.old M → result ≡ done_answer (withdrawn_of M tag).outcome }
    ensures system { (M : Model) → Holds system.old M → system.new ≡ (withdrawn_of M tag).system }
{
    system.withdraw(tag).into()
}

// `System::fetch`. Rules 6 and 11; a refusal alters nothing.
#[unsafe(no_mangle)]
pub extern "C" fn wimpleclay_system_fetch(
    system: &System,
    residues: &mut [i32],
    levels: &mut [u8],
) -> ListAnswer
    ensures answer { (M : Model) → Holds system.now M
        → result ≡ list_answer (fetched_of M (length residues.old) (length levels.old)) }
    ensures residues { (M : Model) → Holds system.now M
        → residues.new ≡ fetched_residues M residues.old levels.old }
    ensures levels { (M : Model) → Holds system.now M
        → levels.new ≡ fetched_levels M residues.old levels.old }
{
    system.fetch(residues, levels).into()
}
