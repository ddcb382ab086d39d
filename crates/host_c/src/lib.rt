// The functions that C calls: each is that of the crate host, under the same name and with the same promise.
// Twins of host's all the same: only a static library exports names, and no crate can stand on one.
#![tactic(auto)]

ghost use Rattle.std.specs.Prelude.{length};
ghost use Rattle.calculus.specs.Answers.{check_answer, load_answer, step_answer, report_answer, run_answer};
ghost use Rattle.host.specs.Host.{Answers, RunAnswers, Reports};

use host::{PulleyrushAnswer, PulleyrushReport};

#[unsafe(no_mangle)]
pub extern "C" fn pulleyrush_load(
    script: &[u16],
    out: &mut [u16],
    work: &mut [u16],
) -> PulleyrushAnswer
    ensures { Answers (load_answer script.now (length out.old) (length work.old))
        result out.old work.old out.new work.new }
{
    host::pulleyrush_load(script, out, work)
}

#[unsafe(no_mangle)]
pub extern "C" fn pulleyrush_check(
    script: &[u16],
    out: &mut [u16],
    work: &mut [u16],
) -> PulleyrushAnswer
    ensures { Answers (check_answer script.now (length out.old) (length work.old))
        result out.old work.old out.new work.new }
{
    host::pulleyrush_check(script, out, work)
}

#[unsafe(no_mangle)]
pub extern "C" fn pulleyrush_step(
    image: &[u16],
    revision: u16,
    out: &mut [u16],
    work: &mut [u16],
) -> PulleyrushAnswer
    ensures { Answers (step_answer image.now revision (length out.old) (length work.old))
        result out.old work.old out.new work.new }
{
    host::pulleyrush_step(image, revision, out, work)
}

#[unsafe(no_mangle)]
pub extern "C" fn pulleyrush_run(
    state: &mut [u16],
    length: usize,
    picks: &[u16],
    answers: &mut [u16],
    work: &mut [u16],
) -> PulleyrushAnswer
    ensures { RunAnswers
        (run_answer state.old length picks.now answers.old work.old)
        result state.new answers.new work.new }
{
    host::pulleyrush_run(state, length, picks, answers, work)
}

#[unsafe(no_mangle)]
pub extern "C" fn pulleyrush_report(image: &[u16]) -> PulleyrushReport
    ensures { Reports (report_answer image.now) result }
{
    host::pulleyrush_report(image)
}
