// Writing words at places that may lie past the end.
ghost use Rattle.std.specs.Prelude.{◌≡◌, ◌+◌, ◌^◌, ◌<◌, length, set};
ghost use Rattle.std.proofs.lemmas.List.Edits.{sets};

// Writes w at i, or nothing past the end. By an index, since after `get_mut` a proof knows no element but the length.
// Not the `mark` of words: that sets a bool, in marks alone, and this any word of a buffer.
pub fn put(s: &mut [u16], i: usize, w: u16)
    ensures { s.new ≡ set s.old i w }
{
    if i < s.len() {
        s[i] = w;
    }
}

// Writes the part from `to` on, as far as there is room, and says where it ends, counting the words for which there is
// none too, which the cursor of `write` does not.
pub fn copy(part: &[u16], out: &mut [u16], to: usize) -> usize
    requires { to < 2 ^ 32 }
    ensures { (result ≡ to + length part.now)
        × (out.new ≡ sets out.old to part.now) }
{
    let end = to + part.len();
    if end <= out.len() {
        words::buffers::copy(part, &mut out[to..end]);
    } else if to < out.len() {
        let room = out.len() - to;
        words::buffers::copy(&part[..room], &mut out[to..]);
    }
    end
}
