// The revision numbers in use, as marks beside their count.
ghost use Rattle.std.specs.Prelude.{◌≡◌};
ghost use Rattle.calculus.specs.Answers.{tally};

use crate::names::{Leaf, Marks, with_names};

// The marks of the revision numbers in use, and how many are set.
#[derive(Clone, Copy, PartialEq, Eq, Debug)]
pub struct InUse {
    pub marks: [bool; 64],
    pub count: usize,
    pub ghost counted: { count ≡ tally marks },
}

impl Marks for InUse {
    ghost marks = { λ used. used.marks };

    // Counted where it is new.
    fn mark(&mut self, number: u16) {
        let i = number as usize;
        if i < 64 && !self.marks[i] {
            self.marks[i] = true;
            self.count += 1;
        }
    }
}

impl InUse {
    ghost use Rattle.words.specs.Marks.{Clear, Marked, RevisionsMarked};

    // No revision number is in use.
    pub fn none() -> InUse
        ensures { Clear result }
    {
        InUse {
            marks: [false; 64],
            count: 0,
        }
    }

    // One more mark; a number past the marks is none.
    // No crate here calls it: it stays since it is a public function with a promise, Marked.
    pub fn with(self, number: u16) -> InUse
        ensures { Marked self number result }
    {
        let mut more = self;
        more.mark(number);
        more
    }

    // The marks with those of the revision numbers that are named in the words.
    pub fn with_names(self, s: &[u16]) -> InUse
        ensures { RevisionsMarked s.now self result }
    {
        with_names(self, s, Leaf::Revision)
    }
}
