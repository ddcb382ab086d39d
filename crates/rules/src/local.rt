// The rules that change nothing but the expression: if, read, arithmetic.
ghost use Rattle.std.specs.Prelude.{◌≡◌};
ghost use Rattle.calculus.specs.Numbers.{calculated};
ghost use Rattle.calculus.specs.Words.{words};
ghost use Rattle.write.specs.Cursor.{Wrote};
ghost use Rattle.rules.specs.Work.{Working, Acts};
ghost use Rattle.rules.specs.Operations.{meant, tag_of};
ghost use Rattle.words.specs.Tags.{word_of};
ghost use Rattle.words.specs.declared.tags.Tag.TheVariants.{If, Read};

use crate::site::{Moved, Reason, Refusal, Site};
use crate::splice::replace;
use image::nodes::past;
use image::parts::look_up;
use words::numbers::{add, less, subtract};
use words::reading::word_at;
use words::tags::Tag;
use write::cursor::{copy_part, put_word, put_words};

// if: the chosen branch.
pub fn choose(s: &[u16], site: Site, out: &mut [u16]) -> Result<Moved, Refusal>
    requires { Working (word_of If) s.now site }
    ensures { Acts (word_of If) s.now site out.old result out.new }
{
    let p = site.place;
    let no = past(s, p + 2);
    let end = past(s, no);
    let branch = if word_at(s, p + 1) == Tag::True as u16 {
        p + 2..no
    } else {
        no..end
    };
    let to = replace(s, p..end, out, |out, to| copy_part(s, branch, out, to));
    Ok(Moved::To(to))
}

// read: the view's value.
pub fn read(s: &[u16], site: Site, out: &mut [u16]) -> Result<Moved, Refusal>
    requires { Working (word_of Read) s.now site }
    ensures { Acts (word_of Read) s.now site out.old result out.new }
{
    let p = site.place;
    let Some(value) = look_up(s, site.snapshot, site.local, word_at(s, p + 2)) else {
        return Err(Refusal::Stuck(Reason::Location));
    };
    let end = past(s, value);
    let to = replace(
        s,
        p..p + 3,
        out,
        |out, to| copy_part(s, value..end, out, to),
    );
    Ok(Moved::To(to))
}

// The operations on two numbers: an enum and no closure, since the contract says by it which tag the node has.
#[derive(Clone, Copy, PartialEq, Eq, Debug)]
pub enum Operation {
    Add,
    Subtract,
    Less,
}

// Writes the result of the operation.
fn put_result(operation: Operation, m: u16, n: u16, out: &mut [u16], to: usize) -> usize
    ensures { Wrote (words (calculated (meant operation) m n)) out.old to result out.new }
{
    match operation {
        Operation::Add => put_words(out, to, &[Tag::Number as u16, add(m, n)]),
        Operation::Subtract => put_words(out, to, &[Tag::Number as u16, subtract(m, n)]),
        Operation::Less => {
            let truth = if less(m, n) { Tag::True } else { Tag::False };
            put_word(out, to, truth as u16)
        }
    }
}

// add, subtract and less: the result of the operation on two numbers.
pub fn calculate(
    s: &[u16],
    site: Site,
    operation: Operation,
    out: &mut [u16],
) -> Result<Moved, Refusal>
    requires { Working (tag_of operation) s.now site }
    ensures { Acts (tag_of operation) s.now site out.old result out.new }
{
    let p = site.place;
    let m = word_at(s, p + 2);
    let n = word_at(s, p + 4);
    let to = replace(
        s,
        p..p + 5,
        out,
        |out, to| put_result(operation, m, n, out, to),
    );
    Ok(Moved::To(to))
}
