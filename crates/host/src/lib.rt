// What C is offered: load, step, run, check and report over lent buffers, with the paper's numbers as answers.
// The crate host_c exports each of these functions under its own name.
#![tactic(auto)]

ghost use Rattle.std.specs.Prelude.{ℕ, Err, ◌≡◌, ◌+◌, ◌≤◌, length, drop};
ghost use Rattle.calculus.specs.Answers.{check_answer, load_answer, step_answer, report_answer, run_answer};
ghost use Rattle.engine.specs.Answers.{stepped_number, stepped_length, loaded_number, ran_number};
ghost use Rattle.image.specs.Reports.{report_of};
ghost use Rattle.typing.specs.Checks.{error_number};
ghost use Rattle.host.specs.Host.{Numbered, Told, Answers, RunAnswers, Reports, bits};

use engine::answers;
use engine::answers::{LoadError, RunError, StepError, Stepped};
use image::report::{NotValid, report};
use typing::CheckError;
use words::in_use::InUse;

// An answer of the paper: its number, and the length of what comes with it; no enum, since C holds it.
#[repr(C)]
#[derive(Clone, Copy, PartialEq, Eq, Debug)]
pub struct PulleyrushAnswer {
    pub number: u32,
    pub length: usize,
}

// A report: its number, how many revision numbers are in use, and for each of them the bit of that number; no enum, since
// C holds it.
#[repr(C)]
#[derive(Clone, Copy, PartialEq, Eq, Debug)]
pub struct PulleyrushReport {
    pub number: u32,
    pub count: u32,
    pub marks: u64,
}

impl From<Result<Stepped, StepError>> for PulleyrushAnswer {
    ghost from_gives = { λ answer told. Numbered (stepped_number answer) (stepped_length answer) told };

    fn from(answer: Result<Stepped, StepError>) -> PulleyrushAnswer {
        PulleyrushAnswer {
            number: answers::stepped_number(answer) as u32,
            length: answers::length_after(answer, 0),
        }
    }
}

// Why a length is not given, as a number of the paper.
pub trait HasNumber {
    ghost number_is: { Self → ℕ };

    fn number(self) -> u16
        ensures { result ≡ number_is self };
}

impl HasNumber for LoadError {
    ghost number_is = { λ error. loaded_number (Err error) };

    fn number(self) -> u16 {
        answers::loaded_number(Err(self))
    }
}

impl HasNumber for RunError {
    ghost number_is = { λ error. ran_number (Err error) };

    fn number(self) -> u16 {
        answers::ran_number(Err(self))
    }
}

impl HasNumber for CheckError {
    ghost number_is = { error_number };

    // The numbers of a check's refusals, as C gets them (host/pulleyrush.h).
    fn number(self) -> u16 {
        match self {
            CheckError::NoRoom => 9,
            CheckError::NotFormed => 10,
            CheckError::HoldsHandle => 11,
            CheckError::NotClosed => 12,
            CheckError::NoType => 13,
            CheckError::LongType => 14,
        }
    }
}

impl<E: HasNumber> From<Result<usize, E>> for PulleyrushAnswer {
    ghost from_gives = { λ answer told. Told E.number_is answer told };

    fn from(answer: Result<usize, E>) -> PulleyrushAnswer {
        match answer {
            Ok(length) => PulleyrushAnswer { number: 0, length },
            Err(error) => PulleyrushAnswer {
                number: error.number() as u32,
                length: 0,
            },
        }
    }
}

pub fn pulleyrush_load(script: &[u16], out: &mut [u16], work: &mut [u16]) -> PulleyrushAnswer
    ensures { Answers (load_answer script.now (length out.old) (length work.old))
        result out.old work.old out.new work.new }
{
    engine::load::load(script, out, work).into()
}

pub fn pulleyrush_check(script: &[u16], out: &mut [u16], work: &mut [u16]) -> PulleyrushAnswer
    ensures { Answers (check_answer script.now (length out.old) (length work.old))
        result out.old work.old out.new work.new }
{
    typing::check(script, out, work).into()
}

pub fn pulleyrush_step(
    image: &[u16],
    revision: u16,
    out: &mut [u16],
    work: &mut [u16],
) -> PulleyrushAnswer
    ensures { Answers (step_answer image.now revision (length out.old) (length work.old))
        result out.old work.old out.new work.new }
{
    engine::step::step(image, revision, out, work).into()
}

// The state's length stands beside its buffer: C lends all 8,192 words, of which the first are the image.
pub fn pulleyrush_run(
    state: &mut [u16],
    length: usize,
    picks: &[u16],
    answers: &mut [u16],
    work: &mut [u16],
) -> PulleyrushAnswer
    ensures { RunAnswers
        (run_answer state.old length picks.now answers.old work.old)
        result state.new answers.new work.new }
{
    engine::run::run(state, length, picks, answers, work).into()
}

// The number whose bits the marks are, from the lowest.
fn bits_of(marks: [bool; 64]) -> u64
    ensures { result ≡ bits marks }
{
    let mut number = 0;
    for marked in marks.iter().rev() {
        number = number * 2 + u64::from(*marked);
    }
    number
}

impl From<Result<InUse, NotValid>> for PulleyrushReport {
    ghost from_gives = { λ found told. Reports (report_of found) told };

    fn from(found: Result<InUse, NotValid>) -> PulleyrushReport {
        match found {
            Ok(used) => PulleyrushReport {
                number: 0,
                count: used.count as u32,
                marks: bits_of(used.marks),
            },
            Err(NotValid) => PulleyrushReport {
                number: 8,
                count: 0,
                marks: 0,
            },
        }
    }
}

pub fn pulleyrush_report(image: &[u16]) -> PulleyrushReport
    ensures { Reports (report_answer image.now) result }
{
    report(image).into()
}
