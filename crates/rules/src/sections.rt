// What join and fork share: the place of a revision's section, and two stores overlaid.
ghost use Rattle.std.specs.Prelude.{◌≡◌, ◌+◌, ◌≤◌, ◌<◌, length, get_or};
ghost use Rattle.rules.specs.Sections.{Finds, WroteOverlaid};

use image::parts::seek_section;
use words::reading::word_at;
use write::overlay::{Rest, overlay_into};

// Where the section of revision q stands, or else where it would go.
pub fn find_section(s: &[u16], q: u16) -> Result<usize, usize>
    requires { 0 < length s.now }
    ensures { Finds s.now q result }
{
    seek_section(s, 1, word_at(s, 0) as usize, q)
}

// The entries of the store whose count stands at `at`, a number beside the words: see image::parts.
fn entries_at(s: &[u16], at: usize) -> Rest
    requires { at < length s.now }
    ensures { result ≡ record { at = at + 1; count = get_or s.now at 0 } }
{
    Rest {
        at: at + 1,
        count: word_at(s, at) as usize,
    }
}

// Writes the store whose count stands at `a` overlaid by the store whose count stands at `b`.
pub fn overlay_stores(s: &[u16], a: usize, b: usize, out: &mut [u16], to: usize) -> usize
    requires { (a < length s.now) × (b < length s.now) × (get_or s.now a 0 ≤ 256) × (get_or s.now b 0 ≤ 256) }
    ensures { WroteOverlaid s.now a b out.old to result out.new }
{
    overlay_into(s, entries_at(s, a), entries_at(s, b), out, to)
}
