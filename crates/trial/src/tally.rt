// How many comparisons of each kind there were, and how many differed.
use std::io;

// The kinds of comparisons.
#[derive(Clone, Copy)]
pub(crate) enum Kind {
    Test,
    Accepted,
    Classes,
    Entry,
    Mark,
    Unused,
    Member,
    Shared,
    Roots,
    Live,
    Bound,
    Lifts,
    Lifted,
    Next,
    Map,
    Ones,
    Point,
    Counts,
    RaisedClasses,
    RaisedEntry,
    RaisedMark,
    RaisedMember,
    RaisedRoots,
    Raised,
    Call,
    CommonClasses,
    CommonEntry,
    CommonMember,
    CommonRoots,
}

// Each kind and what is printed of it, in the order in which it is printed.
const LINES: [(Kind, &str); 29] = [
    (Kind::Test, "test of a residue"),
    (Kind::Accepted, "problem accepted"),
    (Kind::Classes, "number of classes"),
    (Kind::Entry, "residue and level of a class"),
    (Kind::Mark, "mark of a class"),
    (Kind::Unused, "later slots kept"),
    (Kind::Member, "member of a class exactly if a root"),
    (Kind::Shared, "member of one class at most"),
    (Kind::Roots, "root count"),
    (Kind::Live, "number of live classes"),
    (Kind::Bound, "at most D classes and 1 + n * D live classes"),
    (Kind::Lifts, "roots above a simple digit"),
    (Kind::Lifted, "class of a simple digit"),
    (Kind::Next, "next root"),
    (Kind::Map, "bit of the map"),
    (Kind::Ones, "count of the map"),
    (Kind::Point, "one of many points"),
    (Kind::Counts, "count at a precision"),
    (Kind::RaisedClasses, "number of classes of a raised list"),
    (Kind::RaisedEntry, "residue and level of a raised class"),
    (Kind::RaisedMark, "mark of a raised class"),
    (
        Kind::RaisedMember,
        "member of a raised class exactly if a root of a given class",
    ),
    (
        Kind::RaisedRoots,
        "root count of a raised list, later slots kept",
    ),
    (Kind::Raised, "solver's list raised"),
    (Kind::Call, "answer to a call on a system"),
    (Kind::CommonClasses, "number of classes of a common list"),
    (Kind::CommonEntry, "residue and level of a common class"),
    (
        Kind::CommonMember,
        "member of a common class exactly if a root of all",
    ),
    (
        Kind::CommonRoots,
        "root count of a common list, later slots kept",
    ),
];

// The kinds of the comparisons of a list: of the number of its classes, of the residue and level of one, and of its mark.
#[derive(Clone, Copy)]
pub(crate) struct ListKinds {
    pub(crate) classes: Kind,
    pub(crate) entry: Kind,
    pub(crate) mark: Kind,
}

pub(crate) const SOLVED: ListKinds = ListKinds {
    classes: Kind::Classes,
    entry: Kind::Entry,
    mark: Kind::Mark,
};

pub(crate) const RAISED: ListKinds = ListKinds {
    classes: Kind::RaisedClasses,
    entry: Kind::RaisedEntry,
    mark: Kind::RaisedMark,
};

// So many were compared, of which so many differ.
#[derive(Clone, Copy)]
struct Count {
    compared: u64,
    differ: u64,
}

#[derive(Drop)]
pub(crate) struct Tally {
    polynomials: u64,
    residues: u64,
    differences: u64,
    counts: [Count; LINES.len()],
}

impl Tally {
    pub(crate) fn new() -> Tally {
        let none = Count {
            compared: 0,
            differ: 0,
        };
        Tally {
            polynomials: 0,
            residues: 0,
            differences: 0,
            counts: [none; LINES.len()],
        }
    }

    // One more polynomial, with so many residues.
    pub(crate) fn begin(&mut self, residues: u32) {
        self.polynomials = self.polynomials.saturating_add(1);
        self.residues = self.residues.saturating_add(residues as u64);
    }

    // One comparison of a kind.
    pub(crate) fn compare(&mut self, kind: Kind, same: bool) {
        self.compare_many(kind, 1, !same as u64);
    }

    // So many comparisons of a kind, of which so many differed.
    pub(crate) fn compare_many(&mut self, kind: Kind, compared: u64, differ: u64) {
        if let Some(count) = self.counts.get_mut(kind as usize) {
            count.compared = count.compared.saturating_add(compared);
            count.differ = count.differ.saturating_add(differ);
        }
        self.differences = self.differences.saturating_add(differ);
    }

    // The number of the polynomial that is tried, modulo 2^32.
    pub(crate) fn seed(&self) -> u32 {
        (self.polynomials & 0xffff_ffff) as u32
    }

    pub(crate) fn print(&self, rt: &impl Print) -> io::Result<()> {
        println!(rt; "polynomials: {}", self.polynomials)?;
        println!(rt; "residues: {}", self.residues)?;
        for &(kind, text) in &LINES {
            if let Some(count) = self.counts.get(kind as usize) {
                println!(rt;
                    "{}: {} compared, {} differ",
                    text, count.compared, count.differ
                )?;
            }
        }
        println!(rt; "differences in all: {}", self.differences)
    }
}
