// The report of an image: which revision numbers are live or mentioned.
ghost use Rattle.std.specs.Prelude.{◌≡◌};
ghost use Rattle.calculus.specs.Answers.{report_answer};
ghost use Rattle.image.specs.Reports.{report_of};

use crate::used::in_use;
use crate::valid::is_valid;
use words::in_use::InUse;

// The words are not a valid image.
#[derive(Clone, Copy, PartialEq, Eq, Debug)]
pub struct NotValid;

// The revision numbers in use.
pub fn report(s: &[u16]) -> Result<InUse, NotValid>
    ensures { report_of result ≡ report_answer s.now }
{
    if !is_valid(s) {
        return Err(NotValid);
    }
    Ok(in_use(s))
}
