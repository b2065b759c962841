// Systems of congruences under one p and n that come and go (02, 2.6): the common root list of up to 16 tagged polynomials.
#![tactic(auto)]

ghost use Rattle.std.specs.Prelude.{◌≡◌};
ghost use Rattle.systems.specs.State.{closed, opened_of, Added, Withdrawn, Fetches};

use refusal::Refusal;
use solver::Listed;

mod common_list;
mod cut;
mod slots;

// A held polynomial: its tag, and its root list in the first slots.
#[repr(C)]
#[derive(Clone, Copy)]
pub struct Held {
    pub tag: u32,
    pub classes: u32,
    pub residues: [i32; 64],
    pub levels: [u8; 64],
}

// The common root list, in the first slots, and the number of roots.
#[repr(C)]
#[derive(Clone, Copy)]
pub struct Common {
    pub classes: usize,
    pub roots: u64,
    pub residues: [i32; 1024],
    pub levels: [u8; 1024],
}

// A system. Slots that are not used are zero, so that a system is determined by p, n and what it holds.
#[repr(C)]
#[derive(Clone, Copy)]
pub struct System {
    pub p: u32,
    pub n: u32,
    pub count: usize,
    pub held: [Held; 16],
    pub common: Common,
}

impl System {
    // A system that holds no polynomial. Rules 4, 14 and 5.
    pub fn open(p: u32, n: u32) -> Result<System, Refusal>
        ensures { result ≡ opened_of p n }
    {
        let residues = numbers::check_modulus(p, n)?;
        Ok(System::empty(p, n, Common::everything(residues)))
    }

    // A system that is not opened, and not to be used: all zeros.
    pub fn unopened() -> System
        ensures { result ≡ closed }
    {
        System::empty(0, 0, Common::NONE)
    }

    // Adds the polynomial with these coefficients, lowest degree first, under a tag. Rules 2, 3, 15 and 16; a refusal alters nothing.
    pub fn add(&mut self, tag: u32, coefficients: &[i64]) -> Result<(), Refusal>
        ensures { Added self.old tag coefficients.now (record { system = self.new; outcome = result }) }
    {
        if coefficients.is_empty() {
            return Err(Refusal::NoCoefficient);
        }
        if 65 < coefficients.len() {
            return Err(Refusal::TooManyCoefficients);
        }
        let count = self.count.min(16);
        if slots::index_of(&self.held[..count], tag).is_some() {
            return Err(Refusal::Tag);
        }
        let full = count == 16;
        if full {
            return Err(Refusal::Full);
        }
        // the solver refuses only where the system is made otherwise
        let polynomial = Held::solved(tag, coefficients, self.p, self.n).unwrap_or(Held::BLANK);
        self.common = self.common.cut_by(self.p, self.n, &polynomial);
        self.held[count] = polynomial;
        self.count = count + 1;
        Ok(())
    }

    // Withdraws the polynomial with this tag. Rule 15; a refusal alters nothing.
    pub fn withdraw(&mut self, tag: u32) -> Result<(), Refusal>
        ensures { Withdrawn self.old tag (record { system = self.new; outcome = result }) }
    {
        let count = self.count.min(16);
        let at = slots::index_of(&self.held[..count], tag).ok_or(Refusal::Tag)?;
        slots::close_gap(&mut self.held, at);
        self.held[15] = Held::BLANK;
        self.count = count - 1;
        self.common = Common::cut_by_all(self.p, self.n, &self.held[..count - 1]);
        Ok(())
    }

    // The common root list: residues of least size and levels go into the first slots of the two lists, rising by residue; later slots keep
    // their content. 1,024 slots are always enough. Rules 6 and 11; a refusal alters nothing.
    pub fn fetch(&self, residues: &mut [i32], levels: &mut [u8]) -> Result<Listed, Refusal>
        ensures { Fetches self.now residues.old levels.old result residues.new levels.new }
    {
        let slots = residues.len();
        if slots != levels.len() {
            return Err(Refusal::Lengths(slots.min(levels.len())));
        }
        let classes = self.common.classes;
        if slots < classes {
            return Err(Refusal::TooFewSlots(classes));
        }
        let front = classes.min(1024);
        common_list::copy(&self.common.residues[..front], &mut residues[..front]);
        common_list::copy(&self.common.levels[..front], &mut levels[..front]);
        Ok(Listed {
            classes,
            roots: self.common.roots,
        })
    }
}
