// The check of a script: whether it has a type by the rules, and which, with no type copied on the way.
#![tactic(auto)]

ghost use Rattle.std.specs.Prelude.{◌≡◌};
ghost use Rattle.typing.specs.Checks.{CheckPromise, of_script};
ghost use Rattle.typing.specs.Answering.{PutType, Answered};

use infer::infer;
use script::Script;
use types::Held;
use words::buffers::clear;
use words::script::{ScriptError, check_script};
use writing::write_type;

mod buffers;
mod infer;
mod rules;
mod script;
mod types;
mod writing;

// Why the check wrote no type.
#[derive(Clone, Copy, PartialEq, Eq, Debug)]
pub enum CheckError {
    NoRoom,
    NotFormed,
    HoldsHandle,
    NotClosed,
    NoType,
    LongType,
}

impl From<ScriptError> for CheckError {
    ghost from_gives = { λ e r. r ≡ of_script e };

    fn from(error: ScriptError) -> CheckError {
        match error {
            ScriptError::NotFormed => CheckError::NotFormed,
            ScriptError::HoldsHandle => CheckError::HoldsHandle,
            ScriptError::NotClosed => CheckError::NotClosed,
        }
    }
}

// The words of the type that is held at p in `out`, and zeros after them: if they are at most 4,096, and there is room.
fn put_type(script: Script, links: &[u16], p: u16, out: &mut [u16]) -> Result<usize, CheckError>
    ensures { PutType script.entry.words.now links.now p out.old result out.new }
{
    let types = Held { script, links };
    // into no room at all, which only counts them
    let n = write_type(types, p, &mut out[..0]);
    if 4096 < n {
        return Err(CheckError::LongType);
    }
    if out.len() < n {
        return Err(CheckError::NoRoom);
    }
    write_type(types, p, out);
    clear(out, n);
    Ok(n)
}

// The check, but for the work buffer that it leaves.
fn answer(words: &[u16], out: &mut [u16], work: &mut [u16]) -> Result<usize, CheckError>
    ensures { Answered words.now out.old work.old result out.new }
{
    if work.len() != 8192 {
        return Err(CheckError::NoRoom);
    }
    check_script(words)?;
    let script = Script { words };
    clear(work, 0);
    let typed = infer(script, 0, words.len() as u16, work)?;
    put_type(script, work, typed.held, out)
}

// The length of the type of a script, whose words stand in `out`, then zeros; the work buffer is zeros in the end.
pub fn check(script: &[u16], out: &mut [u16], work: &mut [u16]) -> Result<usize, CheckError>
    ensures { CheckPromise
        script.now out.old work.old result out.new work.new }
{
    let outcome = answer(script, out, work);
    clear(work, 0);
    outcome
}
