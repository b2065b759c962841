// The plain model of a system: the tags that are held, and at each residue those whose polynomial it does not solve.
use crate::plain::Roots;

// Sets of tags, of which there are 32: bit k for tag number k.
#[derive(Clone, Copy)]
pub(crate) struct Held {
    tags: u32,
    unsolved: [u32; 512],
}

impl Held {
    pub(crate) fn new() -> Held {
        Held {
            tags: 0,
            unsolved: [0; 512],
        }
    }

    // Whether tag k is held.
    fn has(&self, k: u32) -> bool {
        self.tags >> (k % 32) & 1 == 1
    }

    // Adds a polynomial that has these roots under tag k, and gives the answer: on refusal its number.
    pub(crate) fn add(&mut self, k: u32, roots: &Roots) -> Result<(), u32> {
        if self.has(k) {
            return Err(15);
        }
        if self.tags.count_ones() == 16 {
            return Err(16);
        }
        let tag = 1 << (k % 32);
        self.tags |= tag;
        for (tags, &solves) in self.unsolved.iter_mut().zip(&roots.at) {
            if !solves {
                *tags |= tag;
            }
        }
        Ok(())
    }

    // Withdraws the polynomial under tag k, and gives the answer.
    pub(crate) fn withdraw(&mut self, k: u32) -> Result<(), u32> {
        if !self.has(k) {
            return Err(15);
        }
        let others = !(1 << (k % 32));
        self.tags &= others;
        for tags in self.unsolved.iter_mut() {
            *tags &= others;
        }
        Ok(())
    }

    // The residues below m that solve all polynomials.
    pub(crate) fn common(&self, m: u32) -> Roots {
        Roots::new(
            m,
            &|r| { self.unsolved.get(r as usize).is_some_and(|&tags| tags == 0) },
        )
    }
}
