// A run over a list of picks.
ghost use Rattle.engine.specs.Parts.{Ready, ReadyFor, Tries, Tried};
ghost use Rattle.engine.specs.Promises.{RunPromise};

use crate::answers::{RunError, StepError, Stepped, length_after, stepped_number};
use image::valid::is_valid;
use rules::advance::advance;
use rules::site::Moved;
use words::buffers::{clear, copy};

// One pick, on the image in the first n words of the state buffer: the two are apart as C lends them.
fn pick(state: &mut [u16], n: usize, r: u16, work: &mut [u16]) -> Result<Stepped, StepError>
    requires { Ready state.old n work.old }
    ensures { Tries state.old n r result state.new work.new }
{
    match advance(&state[..n], r, work)? {
        Moved::To(m) => {
            if work.len() < m {
                return Err(StepError::NoRoom);
            }
            copy(&work[..m], &mut state[..m]);
            Ok(Stepped::Moved(m))
        }
        Moved::Emptied => {
            state[0] = 0;
            Ok(Stepped::Emptied(1))
        }
    }
}

// Every pick in turn: the length of the last image. It stands beside the buffer, as C lends it. The answers are put by their index: of a slice that is walked with
// iter_mut a proof knows the length and no element.
fn try_all(
    state: &mut [u16],
    length: usize,
    picks: &[u16],
    answers: &mut [u16],
    work: &mut [u16],
) -> usize
    requires { ReadyFor state.old length picks.now answers.old work.old }
    ensures { Tried state.old length picks.now answers.old
        state.new result answers.new work.new }
{
    let mut n = length;
    for (i, r) in picks.iter().enumerate() {
        let answer = pick(state, n, *r, work);
        answers[i] = stepped_number(answer);
        n = length_after(answer, n);
    }
    n
}

// Tries every pick in turn on the image in the first words of the state buffer, whose length C lends beside it.
pub fn run(
    state: &mut [u16],
    length: usize,
    picks: &[u16],
    answers: &mut [u16],
    work: &mut [u16],
) -> Result<usize, RunError>
    ensures { RunPromise state.old length picks.now answers.old
        work.old result state.new answers.new work.new }
{
    if state.len() != 8192 {
        return Err(RunError::NoRoom);
    }
    if work.len() != 8192 {
        return Err(RunError::NoRoom);
    }
    if answers.len() < picks.len() {
        return Err(RunError::NoRoom);
    }
    if 8192 < length {
        return Err(RunError::NotValid);
    }
    if !is_valid(&state[..length]) {
        return Err(RunError::NotValid);
    }
    let n = try_all(state, length, picks, answers, work);
    clear(state, n);
    clear(work, 0);
    Ok(n)
}
