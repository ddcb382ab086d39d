// A cursor that may run past the end of the buffer: stores there do nothing, and the cursor stays one past the end.
ghost use Rattle.std.specs.Prelude.{◌≡◌, ◌≤◌, [], ◌∷◌, length};
ghost use Rattle.write.specs.Cursor.{Wrote, part};

use std::ops::Range;
use words::buffers::copy;

// Writes the word w at the cursor. The buffer and the place are two parameters: as fields of one struct, each function
// that writes would also have to promise that the struct keeps the caller's reference (its ghost_name).
pub fn put_word(out: &mut [u16], to: usize, w: u16) -> usize
    ensures { Wrote (w ∷ []) out.old to result out.new }
{
    put_words(out, to, &[w])
}

// Writes the words at the cursor.
pub fn put_words(out: &mut [u16], to: usize, words: &[u16]) -> usize
    ensures { Wrote words.now out.old to result out.new }
{
    if out.len() < to {
        return out.len() + 1;
    }
    let room = out.len() - to;
    if room < words.len() {
        copy(&words[..room], &mut out[to..]);
        return out.len() + 1;
    }
    copy(words, &mut out[to..to + words.len()]);
    to + words.len()
}

// The words of s in the range: none where it ends before it starts.
pub fn part_of(s: &[u16], range: Range<usize>) -> &[u16]
    requires { range.end ≤ length s.now }
    ensures { result.now ≡ part s.now range.start range.end }
{
    s.get(range).unwrap_or(&[])
}

// Writes the words of s in the range at the cursor.
pub fn copy_part(s: &[u16], range: Range<usize>, out: &mut [u16], to: usize) -> usize
    requires { range.end ≤ length s.now }
    ensures { Wrote (part s.now range.start range.end) out.old to result out.new }
{
    put_words(out, to, part_of(s, range))
}
