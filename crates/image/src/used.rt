// The revision numbers in use in an image, as marks and their count.
ghost use Rattle.calculus.specs.NewNumbers.{taken_revisions};
ghost use Rattle.image.specs.Marks.{revisions, section_revisions, NamesMarked, SectionMarks, ImageMarks};

use crate::items::{Entry, Section};
use crate::marks::{Taken, mark_items};
use crate::parts::Parts;
use words::in_use::InUse;
use words::names::Marks;

impl Taken for InUse {
    ghost taking = { revisions };

    fn mark_entry(&mut self, _location: u16, value: &[u16]) {
        *self = self.with_names(value);
    }

    fn mark_section(&mut self, number: u16) {
        self.mark(number);
    }

    fn mark_expression(&mut self, expression: &[u16]) {
        *self = self.with_names(expression);
    }
}

// The marks with those of the revisions that are named in the expression that stands from `from` to `to`, and the marks
// alone where the words have no such range.
pub fn uses_between(s: &[u16], from: usize, to: usize, used: InUse) -> InUse
    ensures { NamesMarked s.now from to used result }
{
    match s.get(from..to) {
        Some(expression) => used.with_names(expression),
        None => used,
    }
}

// The marks with those of a section that is cut at its parts: its number, and what its stores and its expression name.
// No crate here calls it: it stays, since it is a public function that promises this.
pub fn uses_of_section(s: &[u16], number: u16, at: usize, parts: Parts, used: InUse) -> InUse
    ensures { SectionMarks (section_revisions number) s.now at parts used.marks result.marks }
{
    let mut all = used;
    all.mark_section(number);
    mark_items::<Entry, _>(s, at, &mut all);
    mark_items::<Entry, _>(s, parts.local, &mut all);
    uses_between(s, parts.expression, parts.end, all)
}

// The revision numbers that are live or mentioned.
// It and taken_locations stay two: each is one call of the walk that they share, mark_items, over marks of its own.
pub fn in_use(s: &[u16]) -> InUse
    ensures { ImageMarks taken_revisions 64 s.now result.marks }
{
    let mut used = InUse::none();
    mark_items::<Section, _>(s, 0, &mut used);
    used
}
