// Loading a script.
ghost use Rattle.std.specs.Prelude.{◌≤◌, length};
ghost use Rattle.engine.specs.Parts.{FirstTold};
ghost use Rattle.engine.specs.Promises.{LoadPromise};

use crate::answers::LoadError;
use words::buffers::clear;
use words::script::check_script;
use write::cursor::{put_word, put_words};

// The image of a script's first state into out: one revision, 0, with two empty stores and the script.
fn write_first(script: &[u16], out: &mut [u16]) -> Result<usize, LoadError>
    requires { length script.now ≤ 2048 }
    ensures { FirstTold script.now out.old result out.new }
{
    let n = script.len() + 4;
    if out.len() < n {
        return Err(LoadError::NoRoom);
    }
    clear(out, 0);
    put_word(out, 0, 1);
    put_words(out, 4, script);
    Ok(n)
}

// The first state of the script into out, or why there is none.
pub fn load(script: &[u16], out: &mut [u16], work: &mut [u16]) -> Result<usize, LoadError>
    ensures { LoadPromise script.now out.old work.old
        result out.new work.new }
{
    clear(work, 0);
    if work.len() != 8192 {
        return Err(LoadError::NoRoom);
    }
    check_script(script)?;
    write_first(script, out)
}
