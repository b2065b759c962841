// Lists of classes.
use crate::modular::{Modulus, modulo, power};
use crate::plain::Roots;

// The first k slots have the residues and levels of the classes.
#[derive(Clone, Copy, PartialEq, Eq)]
pub(crate) struct List {
    pub(crate) k: usize,
    pub(crate) residues: [i32; 65],
    pub(crate) levels: [u8; 65],
}

impl List {
    // No class, and 77 in every slot.
    pub(crate) fn new() -> List {
        List {
            k: 0,
            residues: [77; 65],
            levels: [77; 65],
        }
    }

    // Adds a class, if there is a slot for it.
    pub(crate) fn push(&mut self, residue: i32, level: u32) {
        let k = self.k;
        if k < 65 {
            self.residues[k] = residue;
            self.levels[k] = level.min(255) as u8;
            self.k = k + 1;
        }
    }

    pub(crate) fn residues(&self) -> &[i32] {
        &self.residues[..self.k.min(65)]
    }

    pub(crate) fn levels(&self) -> &[u8] {
        &self.levels[..self.k.min(65)]
    }

    // How many of the classes have r as a member: a class of level t has it if its residue is r modulo p^t, or that less p^t.
    pub(crate) fn memberships(&self, p: u32, r: u32) -> usize {
        let classes = self.residues().iter().zip(self.levels());
        classes
            .filter(|&(&z, &t)| {
                let q = power(p, t as u32);
                let a = modulo(r, q) as i64;
                z as i64 == a || z as i64 == a - q as i64
            })
            .count()
    }

    // How many residues are not in one class where they are wanted, or in any where they are not.
    pub(crate) fn misplaced(&self, x: &Modulus, wanted: &Roots) -> usize {
        (0..x.m)
            .filter(|&r| self.memberships(x.p, r) != wanted.contains(r) as usize)
            .count()
    }

    // Whether the slots after the classes hold 77 still.
    pub(crate) fn unused(&self) -> bool {
        let k = self.k.min(65);
        self.residues[k..].iter().all(|&z| z == 77) && self.levels[k..].iter().all(|&t| t == 77)
    }
}
