// Whether words are a script, or why not: a script is one closed expression of at most 2,048 words that names no location
// and no revision.
ghost use Rattle.words.specs.Scripts.{ScriptTold};

use crate::closed::closed_end_of;
use crate::names::holds_handle;
use crate::walk::is_expression;

// Why words are no script, in the order of the tests.
#[derive(Clone, Copy, PartialEq, Eq, Debug)]
pub enum ScriptError {
    NotFormed,
    HoldsHandle,
    NotClosed,
}

// Are the words a script, or why not?
pub fn check_script(words: &[u16]) -> Result<(), ScriptError>
    ensures { ScriptTold words.now result }
{
    if 2048 < words.len() || !is_expression(words) {
        return Err(ScriptError::NotFormed);
    }
    if holds_handle(words) {
        return Err(ScriptError::HoldsHandle);
    }
    if closed_end_of(words, 0).is_none() {
        return Err(ScriptError::NotClosed);
    }
    Ok(())
}
