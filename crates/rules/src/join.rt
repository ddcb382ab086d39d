// join: the joined revision's section goes, its local store lies over the joiner's, and unit stands for the join.
ghost use Rattle.rules.specs.Work.{Working, Acts};
ghost use Rattle.rules.specs.Sections.{Joinable, WroteJoined};
ghost use Rattle.words.specs.Tags.{word_of};
ghost use Rattle.words.specs.declared.tags.Tag.TheVariants.{Join};

use crate::sections::{find_section, overlay_stores};
use crate::site::{Moved, Refusal, Site};
use crate::splice::splice;
use image::parts::parts_of;
use std::ops::Range;
use words::reading::word_at;
use words::tags::Tag;
use write::cursor::{copy_part, put_word, put_words};

// The next image: the section that stands in the range, and whose local store stands at `local`, is joined. The closure
// that writes nothing stands twice: splice takes what it is given, by value.
fn write_joined(
    s: &[u16],
    site: Site,
    section: Range<usize>,
    local: usize,
    out: &mut [u16],
) -> usize
    requires { Joinable s.now site local }
    ensures { WroteJoined s.now site section.start section.end local out.old result out.new }
{
    let (from, end) = (section.start, section.end);
    let to = put_word(out, 0, word_at(s, 0) - 1);
    let to = splice(
        s,
        1..site.local,
        from..end,
        out,
        to,
        |out, to| put_words(out, to, &[]),
    );
    let to = overlay_stores(s, site.local, local, out, to);
    let to = copy_part(s, site.expression..site.place, out, to);
    let to = put_word(out, to, Tag::Unit as u16);
    splice(
        s,
        site.place + 3..s.len(),
        section,
        out,
        to,
        |out, to| put_words(out, to, &[]),
    )
}

pub fn join(s: &[u16], site: Site, out: &mut [u16]) -> Result<Moved, Refusal>
    requires { Working (word_of Join) s.now site }
    ensures { Acts (word_of Join) s.now site out.old result out.new }
{
    let q = word_at(s, site.place + 2);
    let Ok(at) = find_section(s, q) else {
        return Ok(Moved::Emptied);
    };
    let parts = parts_of(s, at + 1);
    // a revision's expression is a value by its tag, the last of which is the lambda's
    if (Tag::Lambda as u16) < word_at(s, parts.expression) {
        return Err(Refusal::Waits);
    }
    let to = write_joined(s, site, at..parts.end, parts.local, out);
    Ok(Moved::To(to))
}
