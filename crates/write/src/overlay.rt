// The overlay of two stores whose entries stand in the same words, by rising location.
ghost use Rattle.std.specs.Prelude.{◌+◌, ◌<◌, ◌≤◌, length};
ghost use Rattle.write.specs.Overlay.{IsNext, SplitFirst, Turns, WroteOverlay};

use crate::cursor::{copy_part, put_word};
use image::nodes::past;
use std::cmp::Ordering;
use std::ops::Range;
use words::reading::word_at;

// What is left of a store: so many entries, the first of which stands at `at`, a number beside the words: see
// image::parts.
#[derive(Clone, Copy, PartialEq, Eq, Debug)]
pub struct Rest {
    pub at: usize,
    pub count: usize,
}

impl Rest {
    // The words of its first entry, and what is left after it.
    fn split_first(self, s: &[u16]) -> (Range<usize>, Rest)
        requires { (self.at ≤ length s.now) × (0 < self.count) }
        ensures { SplitFirst s.now self result.0 result.1 }
    {
        let end = past(s, self.at + 1);
        let left = Rest {
            at: end,
            count: self.count - 1,
        };
        (self.at..end, left)
    }
}

// Whose entry is next: the first store's, the second's, or of one location both, and the second's is written.
fn next_of(s: &[u16], first: Rest, second: Rest) -> Ordering
    ensures { IsNext s.now first second result }
{
    if second.count == 0 {
        return Ordering::Less;
    }
    if first.count == 0 {
        return Ordering::Greater;
    }
    word_at(s, first.at).cmp(&word_at(s, second.at))
}

// The words of the overlay's next entry, and what is then left of the two stores.
#[derive(Drop, PartialEq, Eq, Debug)]
pub struct Turn {
    pub entry: Range<usize>,
    pub first: Rest,
    pub second: Rest,
}

pub fn advance(s: &[u16], first: Rest, second: Rest) -> Turn
    requires { (first.at ≤ length s.now) × (second.at ≤ length s.now) × (0 < first.count + second.count) }
    ensures { Turns s.now first second result }
{
    let (entry, first, second) = match next_of(s, first, second) {
        Ordering::Less => {
            let (entry, first) = first.split_first(s);
            (entry, first, second)
        }
        Ordering::Greater => {
            let (entry, second) = second.split_first(s);
            (entry, first, second)
        }
        Ordering::Equal => {
            let (entry, second) = second.split_first(s);
            let (_, first) = first.split_first(s);
            (entry, first, second)
        }
    };
    Turn {
        entry,
        first,
        second,
    }
}

// Writes the first store overlaid by the second, after the count of its entries. The two rests are two parameters here
// and above: each function names both halves of a pair all the same.
pub fn overlay_into(
    s: &[u16],
    mut first: Rest,
    mut second: Rest,
    out: &mut [u16],
    to: usize,
) -> usize
    requires { (first.at ≤ length s.now) × (second.at ≤ length s.now) × (first.count ≤ 256) × (second.count ≤ 256) }
    ensures { WroteOverlay s.now first second out.old to result out.new }
{
    // The count is known at the end only: until then 0 keeps its place.
    let mut count: u16 = 0;
    let mut cursor = put_word(out, to, count);
    // A while: one turn takes an entry of each store where both have it, so no range has the turns.
    while 0 < first.count + second.count {
        let turn = advance(s, first, second);
        cursor = copy_part(s, turn.entry, out, cursor);
        count += 1;
        first = turn.first;
        second = turn.second;
    }
    put_word(out, to, count);
    cursor
}
