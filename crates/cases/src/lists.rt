// Lists of classes that are lent to a call.
use crate::list::first;
use crate::rows::Row;

#[derive(Drop)]
pub(crate) struct Lists {
    residues: [i32; 66],
    levels: [u8; 66],
    marks: [u8; 66],
}

impl Lists {
    // The numbers in groups of so many: the first of a group as a residue, the second as a level, the last as a mark.
    pub(crate) fn read(row: &Row, each: usize) -> Lists {
        let mut lists = Lists {
            residues: [0; 66],
            levels: [0; 66],
            marks: [0; 66],
        };
        let groups = lists
            .residues
            .iter_mut()
            .zip(&mut lists.levels)
            .zip(&mut lists.marks);
        for (i, ((residue, level), mark)) in groups.enumerate() {
            let at = each.wrapping_mul(i);
            *residue = row.residue(at);
            *level = row.byte(at.wrapping_add(1));
            *mark = row.byte(at.wrapping_add(each).wrapping_sub(1));
        }
        lists
    }

    pub(crate) fn residues(&self, count: usize) -> &[i32] {
        first(&self.residues, count)
    }

    pub(crate) fn levels(&self, count: usize) -> &[u8] {
        first(&self.levels, count)
    }

    pub(crate) fn marks(&self, count: usize) -> &[u8] {
        first(&self.marks, count)
    }
}
