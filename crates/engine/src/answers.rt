// The answers of a step, a load and a run, and the number of each (specs/Answers.antt).
ghost use Rattle.std.specs.Prelude.{◌≡◌};
ghost use Rattle.engine.specs.Answers as answers;

// Why a step is stuck is part of StepError, so it has its name here too.
pub use rules::site::Reason;
use rules::site::Refusal;
use words::script::ScriptError;

// A step taken, with the length of the image written: the next state's, or the empty state's, which is written too.
#[derive(Clone, Copy, PartialEq, Eq, Debug)]
pub enum Stepped {
    Moved(usize),
    Emptied(usize),
}

// Why a step is not taken: what the rules say, and what only a step does, in one flat enum as the numbers are one list.
#[derive(Clone, Copy, PartialEq, Eq, Debug)]
pub enum StepError {
    Finished,
    Waits,
    Stuck(Reason),
    NotLive,
    NoNumber,
    NotValid,
    NoRoom,
}

impl From<Refusal> for StepError {
    ghost from_gives = { λ refusal given. given ≡ answers.step_error refusal };

    fn from(refusal: Refusal) -> StepError {
        match refusal {
            Refusal::Finished => StepError::Finished,
            Refusal::Waits => StepError::Waits,
            Refusal::Stuck(reason) => StepError::Stuck(reason),
            Refusal::NotLive => StepError::NotLive,
            Refusal::NoNumber => StepError::NoNumber,
        }
    }
}

// Why a script is not loaded.
#[derive(Clone, Copy, PartialEq, Eq, Debug)]
pub enum LoadError {
    NoRoom = 9,
    NotFormed = 10,
    HoldsHandle = 11,
    NotClosed = 12,
}

impl From<ScriptError> for LoadError {
    ghost from_gives = { λ error given. given ≡ answers.load_error error };

    fn from(error: ScriptError) -> LoadError {
        match error {
            ScriptError::NotFormed => LoadError::NotFormed,
            ScriptError::HoldsHandle => LoadError::HoldsHandle,
            ScriptError::NotClosed => LoadError::NotClosed,
        }
    }
}

// Why a run is refused.
#[derive(Clone, Copy, PartialEq, Eq, Debug)]
pub enum RunError {
    NotValid = 8,
    NoRoom = 9,
}

// The numbers of a step's answers, as C gets them (host/pulleyrush.h).
pub fn stepped_number(answer: Result<Stepped, StepError>) -> u16
    ensures { result ≡ answers.stepped_number answer }
{
    match answer {
        Ok(Stepped::Moved(_)) => 0,
        Ok(Stepped::Emptied(_)) => 1,
        Err(StepError::Finished) => 2,
        Err(StepError::Waits) => 3,
        Err(StepError::Stuck(Reason::Shape)) => 4,
        Err(StepError::Stuck(Reason::Location)) => 5,
        Err(StepError::NotLive) => 6,
        Err(StepError::NoNumber) => 7,
        Err(StepError::NotValid) => 8,
        Err(StepError::NoRoom) => 9,
    }
}

// The numbers of a load's answers, as C gets them (host/pulleyrush.h).
pub fn loaded_number(answer: Result<usize, LoadError>) -> u16
    ensures { result ≡ answers.loaded_number answer }
{
    match answer {
        Ok(_) => 0,
        Err(error) => error as u16,
    }
}

// The numbers of a run's answers, as C gets them (host/pulleyrush.h). Beside loaded_number: a cast by `as` is not generic,
// and each refusal is an enum of its own.
pub fn ran_number(answer: Result<usize, RunError>) -> u16
    ensures { result ≡ answers.ran_number answer }
{
    match answer {
        Ok(_) => 0,
        Err(error) => error as u16,
    }
}

// The length of the image after a step, where it was n before.
pub fn length_after(answer: Result<Stepped, StepError>, n: usize) -> usize
    ensures { result ≡ answers.length_after n answer }
{
    match answer {
        Ok(Stepped::Moved(length) | Stepped::Emptied(length)) => length,
        Err(_) => n,
    }
}
