// The items of an image's two kinds of map, each after its key: the entries of a store and the sections of a state.
ghost use Rattle.std.specs.Prelude.{ℕ, List, ◌+◌, ◌≤◌, ◌<◌, length, get_or};
ghost use Rattle.calculus.specs.Stores.{Cell};
ghost use Rattle.calculus.specs.States.{Task};
ghost use Rattle.calculus.specs.Reading.{Reader};
ghost use Rattle.calculus.specs.Images.{cell_words, task_words, ValidCell, ValidTask, read_cell, read_task};
ghost use Rattle.image.specs.Cuts.{Past, Seeks};
ghost use Rattle.image.specs.Matches.{Matched};
ghost use Rattle.image.specs.Marks.{Taking, in_section, MarksAt};

use crate::marks::{Taken, mark_items};
use crate::nodes::past;
use crate::parts::parts_of;
use crate::valid::map_end;
use std::cmp::Ordering;
use words::closed::closed_end_of;
use words::reading::word_at;
use words::tags::Tag;

// A kind of item.
pub trait Item {
    // What the words of an item tell.
    ghost Told: { Type 0 };

    // The words that tell it.
    ghost told_words: { Told → List ℕ };

    // Which of what they tell is valid.
    ghost IsValid: { Told → Type 0 };

    // Their reader.
    ghost read: { ℕ → Reader Told };

    // The numbers that an item takes, by its key.
    ghost taken: { Taking → ℕ → Told → List ℕ };

    // The largest key.
    const LARGEST: u16;

    ghost LARGEST: { ℕ };

    // Where the item at `at` ends.
    fn past(s: &[u16], at: usize) -> usize
        requires { at ≤ length s.now }
        ensures { Past told_words IsValid s.now at result };

    // Where the item at `at` ends, if a valid one stands there.
    fn end(s: &[u16], at: usize) -> Option<usize>
        ensures { Matched read s.now at result };

    // Sets the marks of the item whose key stands at `at`; where it ends.
    fn mark<M: Taken>(s: &[u16], at: usize, marks: &mut M) -> usize
        requires { at < length s.now }
        ensures past { Past told_words IsValid s.now (at + 1) result }
        ensures marked { MarksAt told_words IsValid (taken M.taking (get_or s.now at 0)) s.now (at + 1) (M.marks marks.old) (M.marks marks.new) };
}

// An entry of a store, after its key: the value of a location. No derives: no value of it is made, it names the kind.
pub struct Entry;

impl Item for Entry {
    ghost Told = { Cell };

    ghost told_words = { cell_words };

    ghost IsValid = { ValidCell };

    ghost read = { read_cell };

    ghost taken = { λ t l c. t.entry l c };

    const LARGEST: u16 = 255;

    ghost LARGEST = { 255 };

    fn past(s: &[u16], at: usize) -> usize {
        past(s, at)
    }

    fn end(s: &[u16], at: usize) -> Option<usize> {
        let tag = Tag::of(word_at(s, at))?;
        if !tag.is_value() {
            return None;
        }
        closed_end_of(s, at)
    }

    fn mark<M: Taken>(s: &[u16], at: usize, marks: &mut M) -> usize {
        let end = past(s, at + 1);
        marks.mark_entry(s[at], &s[at + 1..end]);
        end
    }
}

// A section of a state, after its key: the stores and the expression of a revision. No derives, as Entry.
pub struct Section;

impl Item for Section {
    ghost Told = { Task };

    ghost told_words = { task_words };

    ghost IsValid = { ValidTask };

    ghost read = { read_task };

    ghost taken = { in_section };

    const LARGEST: u16 = 63;

    ghost LARGEST = { 63 };

    fn past(s: &[u16], at: usize) -> usize {
        parts_of(s, at).end
    }

    fn end(s: &[u16], at: usize) -> Option<usize> {
        let local = map_end::<Entry>(s, at)?;
        let expression = map_end::<Entry>(s, local)?;
        closed_end_of(s, expression)
    }

    fn mark<M: Taken>(s: &[u16], at: usize, marks: &mut M) -> usize {
        let parts = parts_of(s, at + 1);
        marks.mark_section(s[at]);
        mark_items::<Entry, M>(s, at + 1, marks);
        mark_items::<Entry, M>(s, parts.local, marks);
        marks.mark_expression(&s[parts.expression..parts.end]);
        parts.end
    }
}

// Where the item with the key stands among n items that start at `at`, or else where it would go.
// A walk and no binary search: where an item ends is known only once it is read. Of its own: it stops at a key.
pub fn seek<I: Item>(s: &[u16], at: usize, n: usize, key: u16) -> Result<usize, usize>
    ensures { Seeks I.told_words I.IsValid I.LARGEST s.now at n key result }
{
    let mut p = at;
    for _ in 0..n {
        let Some(&here) = s.get(p) else {
            return Err(p);
        };
        match key.cmp(&here) {
            Ordering::Less => return Err(p),
            Ordering::Equal => return Ok(p),
            Ordering::Greater => p = I::past(s, p + 1),
        }
    }
    Err(p)
}
