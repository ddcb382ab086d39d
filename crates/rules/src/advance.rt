// One step of a revision on a valid image: its place of work is found, and the redex there worked off by its rule.
ghost use Rattle.calculus.specs.Images.{ValidImage};
ghost use Rattle.std.specs.Prelude.{get_or};
ghost use Rattle.rules.specs.Work.{Working, Acts};
ghost use Rattle.rules.specs.Advancing.{LiveAt, StepsAt, Steps};

use crate::apply::apply;
use crate::fork::fork;
use crate::join::join;
use crate::local::{Operation, calculate, choose, read};
use crate::sections::find_section;
use crate::site::{Moved, Reason, Refusal, Site};
use crate::stores::{assign, make};
use image::parts::parts_of;
use place::{Spot, place_of_work};
use words::reading::word_at;
use words::tags::Tag;

// The redex at the site, by its tag.
fn work_off(s: &[u16], site: Site, out: &mut [u16]) -> Result<Moved, Refusal>
    requires { Working (get_or s.now site.place 0) s.now site }
    ensures { Acts (get_or s.now site.place 0) s.now site out.old result out.new }
{
    match Tag::of(word_at(s, site.place)).unwrap() {
        Tag::Apply => apply(s, site, out),
        Tag::If => choose(s, site, out),
        Tag::Ref => make(s, site, out),
        Tag::Read => read(s, site, out),
        Tag::Assign => assign(s, site, out),
        Tag::Fork => fork(s, site, out),
        Tag::Join => join(s, site, out),
        Tag::Add => calculate(s, site, Operation::Add, out),
        Tag::Subtract => calculate(s, site, Operation::Subtract, out),
        Tag::Less => calculate(s, site, Operation::Less, out),
        _ => unreachable!(),
    }
}

// A step of revision r, whose section stands at `at`.
fn step_at(s: &[u16], r: u16, at: usize, out: &mut [u16]) -> Result<Moved, Refusal>
    requires { LiveAt s.now r at }
    ensures { StepsAt s.now r at out.old result out.new }
{
    let snapshot = at + 1;
    let parts = parts_of(s, snapshot);
    match place_of_work(s, parts.expression) {
        Spot::Value => Err(Refusal::Finished),
        Spot::StuckAt(_) => Err(Refusal::Stuck(Reason::Shape)),
        Spot::RedexAt(place) => {
            let site = Site {
                revision: r,
                snapshot,
                local: parts.local,
                expression: parts.expression,
                place,
            };
            work_off(s, site, out)
        }
    }
}

// The next image of s after a step of revision r, written into out, or why there is none.
pub fn advance(s: &[u16], r: u16, out: &mut [u16]) -> Result<Moved, Refusal>
    requires { ValidImage s.now }
    ensures { Steps s.now r out.old result out.new }
{
    let Ok(at) = find_section(s, r) else {
        return Err(Refusal::NotLive);
    };
    step_at(s, r, at, out)
}
