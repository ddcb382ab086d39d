// A type that is held, written out.
ghost use Rattle.std.specs.Prelude.{◌^◌, ◌<◌};
ghost use Rattle.typing.specs.Writing.{WroteHead, WroteType};

use crate::buffers::{copy, put};
use crate::script::Script;
use crate::types::{Head, Held, named};

// A type's first word and, of a function type, the argument's words.
fn write_head(script: Script, head: Head, out: &mut [u16], to: usize) -> usize
    requires { to < 2 ^ 31 }
    ensures { WroteHead script.entry.words.now head out.old to result out.new }
{
    put(out, to, head.tag() as u16);
    match head {
        Head::Function { argument, .. } => {
            copy(named(script.words, argument as usize), out, to + 1)
        }
        _ => to + 1,
    }
}

// Writes the words of the type at p, as far as there is room, and says how many they are.
// A type of over 4,096 words need not be written to its end: 4,097 heads have more words than that.
// `done` is named for the loop's invariant, which says how many heads were written.
pub fn write_type(types: Held, p: u16, out: &mut [u16]) -> usize
    ensures { WroteType types.entry.script.words.now types.entry.links.now p out.old result out.new }
{
    let mut p = p;
    let mut n: usize = 0;
    for done in 0..4097usize {
        let Some(head) = types.head(p) else {
            return n;
        };
        n = write_head(types.script, head, out, n);
        let Some(rest) = head.rest() else {
            return n;
        };
        p = rest;
    }
    n
}
