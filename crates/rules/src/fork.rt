// fork: the child's section stands before or after the parent's, by its number, and names the child for the fork.
ghost use Rattle.rules.specs.Work.{Working, Acts};
ghost use Rattle.rules.specs.Forks.{Forkable, WroteChild, WroteForked};
ghost use Rattle.words.specs.Tags.{word_of};
ghost use Rattle.words.specs.declared.tags.Tag.TheVariants.{Fork};

use crate::sections::{find_section, overlay_stores};
use crate::site::{Moved, Refusal, Site};
use crate::splice::splice;
use image::fresh::new_revision;
use image::nodes::past;
use words::reading::word_at;
use words::tags::Tag;
use write::cursor::{copy_part, put_word, put_words};

// A section to be made: its number, where it goes, and from where to where its expression stands (two numbers, since a
// struct with a Range is not Copy).
#[derive(Clone, Copy, PartialEq, Eq, Debug)]
pub struct Child {
    pub revision: u16,
    pub at: usize,
    pub from: usize,
    pub end: usize,
}

// Writes the child's section: the site's view as its snapshot, no local store, its expression.
fn write_child(s: &[u16], site: Site, child: Child, out: &mut [u16], to: usize) -> usize
    requires { Forkable s.now site child }
    ensures { WroteChild s.now site child out.old to result out.new }
{
    let to = put_word(out, to, child.revision);
    let to = overlay_stores(s, site.snapshot, site.local, out, to);
    let to = put_word(out, to, 0);
    copy_part(s, child.from..child.end, out, to)
}

// The next image: one section more, and the child's name for the fork.
fn write_forked(s: &[u16], site: Site, child: Child, out: &mut [u16]) -> usize
    requires { Forkable s.now site child }
    ensures { WroteForked s.now site child out.old result out.new }
{
    let at = child.at;
    let to = put_word(out, 0, word_at(s, 0) + 1);
    let to = splice(s, 1..site.place, at..at, out, to, |out, to| {
        write_child(s, site, child, out, to)
    });
    let to = put_words(out, to, &[Tag::Revision as u16, child.revision]);
    splice(s, child.end..s.len(), at..at, out, to, |out, to| {
        write_child(s, site, child, out, to)
    })
}

pub fn fork(s: &[u16], site: Site, out: &mut [u16]) -> Result<Moved, Refusal>
    requires { Working (word_of Fork) s.now site }
    ensures { Acts (word_of Fork) s.now site out.old result out.new }
{
    let Some(revision) = new_revision(s) else {
        return Err(Refusal::NoNumber);
    };
    let from = site.place + 1;
    let (Ok(at) | Err(at)) = find_section(s, revision);
    let child = Child {
        revision,
        at,
        from,
        end: past(s, from),
    };
    let to = write_forked(s, site, child, out);
    Ok(Moved::To(to))
}
