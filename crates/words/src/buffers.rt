// Clearing a buffer, and copying into one.
ghost use Rattle.std.specs.Prelude.{◌≡◌, length};
ghost use Rattle.words.specs.Buffers.{Cleared};

// Zeros from `from` on.
pub fn clear(buffer: &mut [u16], from: usize)
    ensures { Cleared buffer.old from buffer.new }
{
    if from < buffer.len() {
        buffer[from..].fill(0);
    }
}

// Copies the words into a buffer of their number. By an index, since copy_from_slice would have the archive for C ask
// its program for memmove, beside memcpy and memset.
pub fn copy(words: &[u16], buffer: &mut [u16])
    requires { length words.now ≡ length buffer.old }
    ensures { buffer.new ≡ words.now }
{
    for i in 0..words.len() {
        buffer[i] = words[i];
    }
}
