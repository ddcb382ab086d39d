// One step.
ghost use Rattle.std.specs.Prelude.{Ok};
ghost use Rattle.rules.specs.declared.site.Moved.TheVariants.{To, Emptied};
ghost use Rattle.engine.specs.Parts.{Delivers, StepTold};
ghost use Rattle.engine.specs.Promises.{StepPromise};

use crate::answers::{StepError, Stepped};
use crate::buffers::fill;
use image::valid::is_valid;
use rules::advance::advance;
use rules::site::Moved;
use words::buffers::clear;

// The next image, n words of the work buffer, into out; n is past the work buffer's end where the image is too long.
fn move_to(n: usize, work: &[u16], out: &mut [u16]) -> Result<Stepped, StepError>
    ensures { Delivers (To n) work.now out.old result out.new }
{
    if work.len() < n {
        return Err(StepError::NoRoom);
    }
    if out.len() < n {
        return Err(StepError::NoRoom);
    }
    fill(out, &work[..n]);
    Ok(Stepped::Moved(n))
}

// The image of the empty state, the one word 0, into out; the work buffer is taken for the clause, which is deliver's.
fn empty(work: &[u16], out: &mut [u16]) -> Result<Stepped, StepError>
    ensures { Delivers Emptied work.now out.old result out.new }
{
    if out.len() < 1 {
        return Err(StepError::NoRoom);
    }
    clear(out, 0);
    Ok(Stepped::Emptied(1))
}

// What came of a step, with the next image in the work buffer, as the answer and the out buffer.
fn deliver(moved: Moved, work: &[u16], out: &mut [u16]) -> Result<Stepped, StepError>
    ensures { Delivers moved work.now out.old result out.new }
{
    match moved {
        Moved::To(n) => move_to(n, work, out),
        Moved::Emptied => empty(work, out),
    }
}

// One step, after which the work buffer holds whatever was written there.
fn step_into(image: &[u16], r: u16, out: &mut [u16], work: &mut [u16]) -> Result<Stepped, StepError>
    ensures { StepTold image.now r out.old work.old result out.new }
{
    if work.len() != 8192 {
        return Err(StepError::NoRoom);
    }
    if !is_valid(image) {
        return Err(StepError::NotValid);
    }
    let moved = advance(image, r, work)?;
    deliver(moved, work, out)
}

// One step of revision r on the image: the next image into out, or why there is none.
pub fn step(image: &[u16], r: u16, out: &mut [u16], work: &mut [u16]) -> Result<Stepped, StepError>
    ensures { StepPromise image.now r out.old work.old
        result out.new work.new }
{
    let answer = step_into(image, r, out, work);
    clear(work, 0);
    answer
}
