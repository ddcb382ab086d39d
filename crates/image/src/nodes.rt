// Where an expression ends that stands in an image.
ghost use Rattle.image.specs.Standing.{EndsAt};

use words::walk::end_of;

// Where the expression at `at` ends, or the end of the words where none stands there.
pub fn past(s: &[u16], at: usize) -> usize
    ensures { EndsAt s.now at result }
{
    end_of(s, at).unwrap_or(s.len())
}
