// Is a list of words a valid image? One walk over the words, which ends where the readers of calculus stop.
ghost use Rattle.std.specs.Prelude.{◌≡◌, ◌≤◌, ◌+◌, length};
ghost use Rattle.calculus.specs.Images.{state_of};
ghost use Rattle.words.specs.Walks.{is_there};
ghost use Rattle.image.specs.Matches.{Matched, list_of, map_of};

use crate::items::{Item, Section};

// Where n items that start at `at` end, if their keys rise and none is over the largest.
// A walk of its own: it alone tests keys and items, and stops at the first that is not valid. Places are numbers beside
// the words: see image::parts.
fn items_end<I: Item>(s: &[u16], at: usize, n: usize) -> Option<usize>
    requires { at ≤ length s.now }
    ensures { Matched (list_of I.read I.LARGEST n) s.now at result }
{
    let largest = I::LARGEST as usize;
    let mut p = at;
    let mut low = 0;
    for _ in 0..n {
        let key = *s.get(p)? as usize;
        if key < low || largest < key {
            return None;
        }
        p = I::end(s, p + 1)?;
        low = key + 1;
    }
    Some(p)
}

// Where the items whose count stands at `at` end.
pub fn map_end<I: Item>(s: &[u16], at: usize) -> Option<usize>
    ensures { Matched (map_of I.read (I.LARGEST + 1) I.LARGEST) s.now at result }
{
    let n = *s.get(at)? as usize;
    if I::LARGEST as usize + 1 < n {
        return None;
    }
    items_end::<I>(s, at + 1, n)
}

// The most words that an image may have.
const MOST_WORDS: usize = 8192;

// Are the words a valid image: of a state, all of them, and not too many?
pub fn is_valid(s: &[u16]) -> bool
    ensures { result ≡ is_there (state_of s.now) }
{
    s.len() <= MOST_WORDS && map_end::<Section>(s, 0) == Some(s.len())
}
