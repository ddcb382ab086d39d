// A store with the value of one location put in its place.
ghost use Rattle.std.specs.Prelude.{◌<◌, ◌≤◌, length, get_or};
ghost use Rattle.write.specs.Entry.{Holes, WrotePut};

use crate::cursor::{copy_part, put_word};
use image::nodes::past;
use image::parts::seek_entry;
use std::ops::Range;

// Where the entry of a location goes: in place of the words of `entry`, none where it has none yet; the count then.
#[derive(Drop, PartialEq, Eq, Debug)]
pub struct Hole {
    pub entry: Range<usize>,
    pub count: u16,
}

fn hole_for(s: &[u16], store: usize, l: u16) -> Hole
    requires { (store < length s.now) × (get_or s.now store 0 ≤ 256) }
    ensures { Holes s.now store l result }
{
    let n = s[store];
    match seek_entry(s, store + 1, n as usize, l) {
        Ok(at) => Hole {
            entry: at..past(s, at + 1),
            count: n,
        },
        Err(at) => Hole {
            entry: at..at,
            count: n + 1,
        },
    }
}

// Writes the store that stands in the range `store`, its count first, with the words of s in the range `cell` as the
// cell of location l. For `out` and `to` see cursor::put_word.
pub fn put_entry(
    s: &[u16],
    store: Range<usize>,
    l: u16,
    cell: Range<usize>,
    out: &mut [u16],
    to: usize,
) -> usize
    requires { (store.start < length s.now) × (store.end ≤ length s.now) × (cell.end ≤ length s.now)
        × (get_or s.now store.start 0 ≤ 256) }
    ensures { WrotePut s.now store.start store.end l cell.start cell.end out.old to result out.new }
{
    let hole = hole_for(s, store.start, l);
    let to = put_word(out, to, hole.count);
    let to = copy_part(s, store.start + 1..hole.entry.start, out, to);
    let to = put_word(out, to, l);
    let to = copy_part(s, cell, out, to);
    copy_part(s, hole.entry.end..store.end, out, to)
}
