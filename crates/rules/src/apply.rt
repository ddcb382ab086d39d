// apply: the body with the value for each free occurrence of the variable.
ghost use Rattle.rules.specs.Work.{Working, Acts};
ghost use Rattle.words.specs.Tags.{word_of};
ghost use Rattle.words.specs.declared.tags.Tag.TheVariants.{Apply};

use crate::site::{Moved, Refusal, Site};
use crate::splice::replace;
use image::nodes::past;
use substitute::substitute;
use words::reading::word_at;
use words::walk::type_end;

pub fn apply(s: &[u16], site: Site, out: &mut [u16]) -> Result<Moved, Refusal>
    requires { Working (word_of Apply) s.now site }
    ensures { Acts (word_of Apply) s.now site out.old result out.new }
{
    let p = site.place;
    let x = word_at(s, p + 2);
    // the lambda's type stands there
    let body = type_end(s, p + 3).unwrap_or(s.len());
    let value = past(s, body);
    let end = past(s, value);
    let to = replace(
        s,
        p..end,
        out,
        |out, to| substitute(s, body, x, value..end, out, to),
    );
    Ok(Moved::To(to))
}
