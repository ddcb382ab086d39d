// A buffer filled with a result and then zeros.
ghost use Rattle.std.specs.Prelude.{◌≤◌, length};
ghost use Rattle.engine.specs.Buffers.{Filled};

use words::buffers::{clear, copy};

// The words, and then zeros.
pub fn fill(buffer: &mut [u16], words: &[u16])
    requires { length words.now ≤ length buffer.old }
    ensures { Filled words.now buffer.old buffer.new }
{
    copy(words, &mut buffer[..words.len()]);
    clear(buffer, words.len());
}
