// Words of the image with others in place of some of them.
ghost use Rattle.std.specs.Prelude.{◌≤◌, length};
ghost use Rattle.rules.specs.Splicing.{Spliced};

use std::ops::Range;
use write::cursor::copy_part;

// Writes the words of s in the range `part`, with what `write` writes in place of those in the range `hole`, if the
// hole starts among them. Six parameters: for out and to see write::cursor::put_word; each caller has a part and a hole
// of its own.
pub fn splice<W: FnOnce(&mut [u16], usize) -> usize>(
    s: &[u16],
    part: Range<usize>,
    hole: Range<usize>,
    out: &mut [u16],
    to: usize,
    write: W,
) -> usize
    requires callable { W.IsAlwaysCallable write }
    requires inside { part.end ≤ length s.now }
    ensures { Spliced W.FnOnce write s.now part.start part.end hole.start hole.end out.old to result out.new }
{
    if hole.start < part.start || part.end < hole.start {
        return copy_part(s, part, out, to);
    }
    let to = copy_part(s, part.start..hole.start, out, to);
    let to = write(out, to);
    copy_part(s, hole.end..part.end, out, to)
}

// Writes s with what `write` writes in place of the words in the range `hole`.
pub fn replace<W: FnOnce(&mut [u16], usize) -> usize>(
    s: &[u16],
    hole: Range<usize>,
    out: &mut [u16],
    write: W,
) -> usize
    requires callable { W.IsAlwaysCallable write }
    ensures { Spliced W.FnOnce write s.now 0 (length s.now) hole.start hole.end out.old 0 result out.new }
{
    splice(s, 0..s.len(), hole, out, 0, write)
}
