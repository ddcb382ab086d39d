// New numbers: the smallest location and the smallest revision that an image leaves free.
ghost use Rattle.std.specs.Prelude.{◌≤◌, length};
ghost use Rattle.image.specs.Fresh.{SmallestClear, NewRevision, NewLocation};

use crate::taken::taken_locations;
use crate::used::in_use;

// The smallest number whose mark is clear, if there is one.
pub fn smallest_clear(marks: &[bool]) -> Option<u16>
    requires { length marks.now ≤ 256 }
    ensures { SmallestClear marks.now result }
{
    let place = marks.iter().position(|mark| !mark)?;
    Some(place as u16)
}

// The number of a new revision: neither live nor mentioned.
// It and new_location stay two: each is one call of what they share, smallest_clear, over marks of its own.
pub fn new_revision(s: &[u16]) -> Option<u16>
    ensures { NewRevision s.now result }
{
    smallest_clear(&in_use(s).marks)
}

// A new location: in no snapshot and no local store.
pub fn new_location(s: &[u16]) -> Option<u16>
    ensures { NewLocation s.now result }
{
    smallest_clear(&taken_locations(s))
}
