// The numbers that an image takes, as marks: one walk over the items of its maps.
ghost use Rattle.std.specs.Prelude.{◌≡◌};
ghost use Rattle.calculus.specs.Images.{cell_words, ValidCell, counted, Listed};
ghost use Rattle.calculus.specs.Words.{words};
ghost use Rattle.calculus.specs.Formed.{Formed};
ghost use Rattle.words.specs.Marks.{mark_all};
ghost use Rattle.image.specs.Marks.{Taking, in_map, MarksOf, MarksAt};

use crate::items::Item;
use words::names::Marks;

// Marks of the numbers that are taken.
pub trait Taken: Marks {
    ghost taking: { Taking };

    // Sets those of an entry of a store: its location, and the words of its value.
    fn mark_entry(&mut self, location: u16, value: &[u16])
        ensures { MarksOf cell_words ValidCell (taking.entry location) value.now (Self.marks self.old) (Self.marks self.new) };

    // Sets those of the number of a section.
    fn mark_section(&mut self, number: u16)
        ensures { Self.marks self.new ≡ mark_all (taking.section number) (Self.marks self.old) };

    // Sets those of the words of an expression.
    fn mark_expression(&mut self, expression: &[u16])
        ensures { MarksOf words Formed taking.expression expression.now (Self.marks self.old) (Self.marks self.new) };
}

// Sets the marks of the items whose count stands at `at`.
// A walk of its own: what it asks for at each item sets marks too.
pub fn mark_items<I: Item, M: Taken>(s: &[u16], at: usize, marks: &mut M)
    ensures { MarksAt (counted I.told_words) (Listed I.IsValid I.LARGEST 0) (in_map (I.taken M.taking))
        s.now at (M.marks marks.old) (M.marks marks.new) }
{
    let Some(&n) = s.get(at) else {
        return;
    };
    let mut p = at + 1;
    for _ in 0..n {
        if s.len() <= p {
            return;
        }
        p = I::mark(s, p, marks);
    }
}
