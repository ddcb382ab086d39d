// Which names occur in an expression, and marks of their numbers: flat scans over its words, node by node.
ghost use Rattle.std.specs.Prelude.{◌≡◌, List, Bool, true, set};
ghost use Rattle.words.specs.Names.{NextLeaf, HandleTold, leaf_of};
ghost use Rattle.words.specs.Marks.{NamesMarked, LocationsMarked};

use crate::table::Kind;
use crate::walk::{front_of_kind, types_end};

// The kinds of leaves, each with its tag. Not Tag: NextLeaf speaks of these four only; the numbers are Tag's.
#[derive(Clone, Copy, PartialEq, Eq, Debug)]
pub enum Leaf {
    Number = 3,
    Variable,
    Location,
    Revision,
}

// Where the next leaf of the kind stands, from the node at `at` on. A lambda's type is passed over, since its words
// are no nodes.
// A loop that counts no index: where the next node starts is known only once this one is read.
pub fn next_leaf(s: &[u16], at: usize, leaf: Leaf) -> Option<usize>
    ensures { NextLeaf s.now at leaf result }
{
    let tag = leaf as u16;
    let mut p = at;
    loop {
        let front = front_of_kind(s, Kind::Expression, p)?;
        if s[p] == tag {
            return Some(p);
        }
        p = types_end(s, front.row.types, front.next)?;
    }
}

// Does a location or a revision occur?
pub fn holds_handle(s: &[u16]) -> bool
    ensures { HandleTold s.now result }
{
    next_leaf(s, 0, Leaf::Location).is_some() || next_leaf(s, 0, Leaf::Revision).is_some()
}

// Marks of numbers.
pub trait Marks {
    ghost marks: { Self → List Bool };

    // Sets the mark of the number; a number past the marks has none.
    fn mark(&mut self, number: u16)
        ensures { marks self.new ≡ set (marks self.old) number true };
}

impl<const N: usize> Marks for [bool; N] {
    ghost marks = { λ m. m };

    fn mark(&mut self, number: u16) {
        let i = number as usize;
        if i < N {
            self[i] = true;
        }
    }
}

// The marks with those of the numbers that the leaves of the kind name.
// An iterator over the leaves would be a struct with ghost members for this one loop, which counts no index.
pub fn with_names<M: Marks>(marks: M, s: &[u16], leaf: Leaf) -> M
    ensures { NamesMarked s.now (leaf_of leaf) (M.marks marks) (M.marks result) }
{
    let mut all = marks;
    let mut p = 0;
    while let Some(q) = next_leaf(s, p, leaf) {
        all.mark(s[q + 1]);
        p = q + 2;
    }
    all
}

// The marks with those of the locations that are named in the words.
// No crate here calls it: it is a public function, which docs/DECISIONS.md names.
pub fn locations_in(s: &[u16], marks: [bool; 256]) -> [bool; 256]
    ensures { LocationsMarked s.now marks result }
{
    with_names(marks, s, Leaf::Location)
}
