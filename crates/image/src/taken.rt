// The locations that some store of an image has, as marks.
ghost use Rattle.calculus.specs.NewNumbers.{taken_locations};
ghost use Rattle.image.specs.Marks.{locations, task_keys, SectionMarks, ImageMarks};

use crate::items::{Entry, Section};
use crate::marks::{Taken, mark_items};
use crate::parts::Parts;
use words::names::Marks;

impl Taken for [bool; 256] {
    ghost taking = { locations };

    fn mark_entry(&mut self, location: u16, _value: &[u16]) {
        self.mark(location);
    }

    fn mark_section(&mut self, _number: u16) {}

    fn mark_expression(&mut self, _expression: &[u16]) {}
}

// The marks with those of the locations of a section's two stores, where it is cut at its parts.
// No crate here calls it: it stays, since it is a public function that promises this.
pub fn keys_of_section(s: &[u16], at: usize, parts: Parts, marks: [bool; 256]) -> [bool; 256]
    ensures { SectionMarks task_keys s.now at parts marks result }
{
    let mut all = marks;
    mark_items::<Entry, _>(s, at, &mut all);
    mark_items::<Entry, _>(s, parts.local, &mut all);
    all
}

// The locations that are in some snapshot or local store. Beside in_use: see there.
pub fn taken_locations(s: &[u16]) -> [bool; 256]
    ensures { ImageMarks taken_locations 256 s.now result }
{
    let mut marks = [false; 256];
    mark_items::<Section, _>(s, 0, &mut marks);
    marks
}
