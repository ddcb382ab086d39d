// The rules that put one entry into the local store: assign and ref.
ghost use Rattle.rules.specs.Work.{Working, Acts};
ghost use Rattle.rules.specs.Putting.{PutPlace, WroteStored};
ghost use Rattle.words.specs.Tags.{word_of};
ghost use Rattle.words.specs.declared.tags.Tag.TheVariants.{Assign, Ref};

use crate::site::{Moved, Reason, Refusal, Site};
use image::fresh::new_location;
use image::nodes::past;
use image::parts::look_up;
use std::ops::Range;
use words::reading::word_at;
use words::tags::Tag;
use write::cursor::{copy_part, put_words};
use write::entry::put_entry;

// The image with the words of s in the range `value` as the cell of location l in the local store, and the words
// `new` for the redex, which ends with the value. Six parameters: a struct of l, value and new would be made at its two
// calls alone.
fn store(s: &[u16], site: Site, l: u16, value: Range<usize>, new: &[u16], out: &mut [u16]) -> usize
    requires { PutPlace s.now site value.end }
    ensures { WroteStored s.now site l value.start value.end new.now out.old result out.new }
{
    let end = value.end;
    let to = copy_part(s, 0..site.local, out, 0);
    let to = put_entry(s, site.local..site.expression, l, value, out, to);
    let to = copy_part(s, site.expression..site.place, out, to);
    let to = put_words(out, to, new);
    copy_part(s, end..s.len(), out, to)
}

// assign: the local store takes the value; result unit.
pub fn assign(s: &[u16], site: Site, out: &mut [u16]) -> Result<Moved, Refusal>
    requires { Working (word_of Assign) s.now site }
    ensures { Acts (word_of Assign) s.now site out.old result out.new }
{
    let l = word_at(s, site.place + 2);
    if look_up(s, site.snapshot, site.local, l).is_none() {
        return Err(Refusal::Stuck(Reason::Location));
    }
    let from = site.place + 3;
    let to = store(s, site, l, from..past(s, from), &[Tag::Unit as u16], out);
    Ok(Moved::To(to))
}

// ref: a cell of the value at a new location; result the location.
pub fn make(s: &[u16], site: Site, out: &mut [u16]) -> Result<Moved, Refusal>
    requires { Working (word_of Ref) s.now site }
    ensures { Acts (word_of Ref) s.now site out.old result out.new }
{
    let Some(l) = new_location(s) else {
        return Err(Refusal::NoNumber);
    };
    let from = site.place + 1;
    let to = store(
        s,
        site,
        l,
        from..past(s, from),
        &[Tag::Location as u16, l],
        out,
    );
    Ok(Moved::To(to))
}
