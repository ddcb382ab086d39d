// The place of work in an expression's words: a loop from the top that keeps only a position.
#![tactic(auto)]

ghost use Rattle.words.specs.Tags.{word_of};
ghost use Rattle.place.specs.Search.{TagAt, Asks, Decides, RedexBy, Looks, Placed};

use image::nodes::past;
use words::tags::Tag;

// The tag that stands at `at`, if one does.
fn tag_at(s: &[u16], at: usize) -> Option<Tag>
    ensures { TagAt s.now at result }
{
    Tag::of(*s.get(at)?)
}

// May the second child be entered? By the node's tag and its first child's: apply after a value, assign after a
// location, add, subtract and less after a number.
#[tactic(auto, using(crate::proofs::Tags::asks_by_lem))]
fn asks_second(node: Tag, first: Tag) -> bool
    ensures { Asks (word_of node) (word_of first) result }
{
    match node {
        Tag::Apply => first.is_value(),
        Tag::Assign => first == Tag::Location,
        Tag::Add | Tag::Subtract | Tag::Less => first == Tag::Number,
        _ => false,
    }
}

// Is the node a redex? By its tag and its first two children's; the second's counts only where it may be entered.
#[tactic(auto, using(crate::proofs::Tags::redex_by_lem))]
fn is_redex(node: Tag, first: Tag, second: Tag) -> bool
    ensures { RedexBy (word_of node) (word_of first) (word_of second) result }
{
    match node {
        Tag::Apply => first == Tag::Lambda && second.is_value(),
        Tag::If => first == Tag::False || first == Tag::True,
        Tag::Ref => first.is_value(),
        Tag::Read => first == Tag::Location,
        Tag::Assign => first == Tag::Location && second.is_value(),
        Tag::Fork => true,
        Tag::Join => first == Tag::Revision,
        Tag::Add | Tag::Subtract | Tag::Less => first == Tag::Number && second == Tag::Number,
        _ => false,
    }
}

// Of a node whose first child stands at `at`, where the child stands whose tag decides: the second child where it may
// be entered, and else the first.
fn deciding_child(s: &[u16], node: Tag, first: Tag, at: usize) -> usize
    ensures { Decides s.now (word_of node) (word_of first) at result }
{
    if asks_second(node, first) {
        past(s, at)
    } else {
        at
    }
}

// What there is to do at a node: the child that starts there is entered, or the search ends. Not ControlFlow: Finds
// (specs) says of each end what it means.
#[derive(Clone, Copy, PartialEq, Eq, Debug)]
pub enum Move {
    Enter(usize),
    IsValue,
    IsRedex,
    IsStuck,
}

// A look at the node at p. Where a tag that it needs is missing no expression stands there, and any end will do.
fn look(s: &[u16], p: usize) -> Move
    ensures { Looks s.now p result }
{
    let Some(node) = tag_at(s, p) else {
        return Move::IsValue;
    };
    if node.is_value() {
        return Move::IsValue;
    }
    let Some(first) = tag_at(s, p + 1) else {
        return Move::IsStuck;
    };
    let child = deciding_child(s, node, first, p + 1);
    let Some(last) = tag_at(s, child) else {
        return Move::IsStuck;
    };
    if is_redex(node, first, last) {
        Move::IsRedex
    } else if last.is_value() {
        Move::IsStuck
    } else {
        Move::Enter(child)
    }
}

// Where the work of an expression is: nowhere in a value, else at a redex, or at the node where no rule goes on.
#[derive(Clone, Copy, PartialEq, Eq, Debug)]
pub enum Spot {
    Value,
    RedexAt(usize),
    StuckAt(usize),
}

// The place of work of the expression at `at`.
pub fn place_of_work(s: &[u16], at: usize) -> Spot
    ensures { Placed s.now at result }
{
    let mut p = at;
    // A loop: how deep the work lies is known only there, so no range has the turns.
    loop {
        match look(s, p) {
            Move::Enter(q) => {
                p = q;
            }
            Move::IsValue => return Spot::Value,
            Move::IsRedex => return Spot::RedexAt(p),
            Move::IsStuck => return Spot::StuckAt(p),
        }
    }
}
