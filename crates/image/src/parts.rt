// The parts of an image: the section of a revision, its stores and its expression, and an entry of a store.
// Places are numbers beside the words: a struct of both would be made, and proved inside the words, at each sum.
ghost use Rattle.std.specs.Prelude.{◌≤◌, ◌<◌, length};
ghost use Rattle.calculus.specs.Images.{counted, cell_words, task_words, ValidCell, ValidStore, ValidTask};
ghost use Rattle.image.specs.Cuts.{Skips, Past, Seeks, PartsAt, ValueIn, Found};

use crate::items::{Entry, Section, seek};
use crate::nodes::past;
use words::reading::word_at;

// Where n entries of a store that start at `at` end, never past the words.
// A walk of its own: it asks of an item no more than where it ends.
pub fn skip(s: &[u16], at: usize, n: usize) -> usize
    ensures { Skips s.now at n result }
{
    let mut p = at;
    for _ in 0..n {
        if s.len() <= p {
            break;
        }
        p = past(s, p + 1);
    }
    p.min(s.len())
}

// Where the store ends whose count stands at `at`.
fn past_store(s: &[u16], at: usize) -> usize
    requires { at ≤ length s.now }
    ensures { Past (counted cell_words) ValidStore s.now at result }
{
    skip(s, at + 1, word_at(s, at) as usize)
}

// Where the entry of location l stands among n entries of a store that start at `at`, or else where it would go.
pub fn seek_entry(s: &[u16], at: usize, n: usize, l: u16) -> Result<usize, usize>
    ensures { Seeks cell_words ValidCell 255 s.now at n l result }
{
    seek::<Entry>(s, at, n, l)
}

// Of a section whose snapshot's count stands at `at`: where its local store's count, its expression and its end stand.
#[derive(Clone, Copy, PartialEq, Eq, Debug)]
pub struct Parts {
    pub local: usize,
    pub expression: usize,
    pub end: usize,
}

// Where the parts of the section stand.
pub fn parts_of(s: &[u16], at: usize) -> Parts
    requires { at ≤ length s.now }
    ensures { PartsAt s.now at result }
{
    let local = past_store(s, at);
    let expression = past_store(s, local);
    let end = past(s, expression);
    Parts {
        local,
        expression,
        end,
    }
}

// Where the section of revision r stands among n sections that start at `at`, or else where it would go.
pub fn seek_section(s: &[u16], at: usize, n: usize, r: u16) -> Result<usize, usize>
    ensures { Seeks task_words ValidTask 63 s.now at n r result }
{
    seek::<Section>(s, at, n, r)
}

// Where the value of location l starts in the store whose count stands at `store`, if it is there.
fn value_in(s: &[u16], store: usize, l: u16) -> Option<usize>
    requires { store < length s.now }
    ensures { ValueIn s.now store l result }
{
    let at = seek_entry(s, store + 1, word_at(s, store) as usize, l).ok()?;
    Some(at + 1)
}

// Where the value of location l in a view starts, if it is there: in the local store at `local`, or else in the
// snapshot at `snapshot`.
pub fn look_up(s: &[u16], snapshot: usize, local: usize, l: u16) -> Option<usize>
    requires { (snapshot < length s.now) × (local < length s.now) }
    ensures { Found s.now snapshot local l result }
{
    value_in(s, local, l).or_else(|| value_in(s, snapshot, l))
}
