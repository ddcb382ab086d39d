// Substitution on words: an expression is written with a value for each free occurrence of a variable.
#![tactic(auto)]

ghost use Rattle.std.specs.Prelude.{◌≡◌, ◌+◌, ◌<◌, ◌≤◌, length};
ghost use Rattle.words.specs.Tags.{word_of};
ghost use Rattle.substitute.specs.Substitutes.{Named, PieceAt, WritesNode, Replaces, Substitutes};

use image::nodes::past;
use std::ops::Range;
use words::reading::word_at;
use words::table::Kind;
use words::tags::Tag;
use words::walk::{front_of_kind, types_end};
use write::cursor::{part_of, put_words};

// What goes in: for each free variable x, the words of the value.
#[derive(Clone, Copy, PartialEq, Eq, Debug)]
pub struct Filling<'a> {
    pub x: u16,
    pub value: &'a [u16],
}

// So many expressions that stand one after the other from `at` on. Not write::overlay::Rest: what stands there are a
// store's entries.
#[derive(Clone, Copy, PartialEq, Eq, Debug)]
pub struct Children {
    pub at: usize,
    pub count: usize,
}

// What is written for a node: words, and then its children.
#[derive(Clone, Copy, PartialEq, Eq, Debug)]
pub struct Piece<'a> {
    pub words: &'a [u16],
    pub children: Children,
}

impl<'a> Piece<'a> {
    // No children: the reading goes on at `next`.
    fn bare(words: &'a [u16], next: usize) -> Piece<'a>
        ensures { result ≡ record { words = words.entry; children = record { at = next; count = 0 } } }
    {
        Piece {
            words,
            children: Children { at: next, count: 0 },
        }
    }
}

// Is it a node of that tag whose own word is x? The place is a number beside the words: see image::parts.
fn is_named(s: &[u16], at: usize, tag: Tag, x: u16) -> bool
    requires { at < length s.now }
    ensures { Named s.now at (word_of tag) x result }
{
    word_at(s, at) == tag as u16 && word_at(s, at + 1) == x
}

// The piece of the node at `at`: for the variable the value, a lambda of it as it stands, and of any other node its
// tag, own word and type, and then its children.
fn piece_at<'a>(s: &'a [u16], at: usize, filling: &Filling<'a>) -> Option<Piece<'a>>
    ensures { PieceAt s.now at filling.now result }
{
    let front = front_of_kind(s, Kind::Expression, at)?;
    if is_named(s, at, Tag::Variable, filling.x) {
        return Some(Piece::bare(filling.value, front.next));
    }
    if is_named(s, at, Tag::Lambda, filling.x) {
        let end = past(s, at);
        return Some(Piece::bare(part_of(s, at..end), end));
    }
    let body = types_end(s, front.row.types, front.next)?;
    Some(Piece {
        words: part_of(s, at..body),
        children: Children {
            at: body,
            count: front.row.children,
        },
    })
}

// Where the reading is, and the cursor.
#[derive(Clone, Copy, PartialEq, Eq, Debug)]
pub struct Reached {
    pub read: usize,
    pub to: usize,
}

// A node's piece is written: its children are still to be, at the cursor.
#[derive(Clone, Copy, PartialEq, Eq, Debug)]
pub struct Opened {
    pub children: Children,
    pub to: usize,
}

// Writes the piece of the node where the reading is; where none stands it is empty, and the reading is over. Two
// functions call it, so that its stack stays out of the recursion.
fn write_node(s: &[u16], at: Reached, filling: &Filling, out: &mut [u16]) -> Opened
    ensures { WritesNode s.now at.read filling.now out.old at.to result out.new }
{
    let piece = piece_at(s, at.read, filling).unwrap_or(Piece::bare(&[], s.len()));
    let children = piece.children;
    let to = put_words(out, at.to, piece.words);
    Opened { children, to }
}

// Writes the children of a node with the value for each free variable. Calls itself for the children of each; `left` is
// at least the count of the words that remain, and falls with each call: it bounds the calls on any words, and Replaces
// (specs) says by it what was written. The node and what goes in are lent, which keeps a call's stack small.
fn replace(s: &[u16], node: &Opened, filling: &Filling, out: &mut [u16], left: usize) -> Reached
    requires { node.now.to ≤ length out.old + 1 }
    ensures { Replaces s.now node.now.children filling.now out.old node.now.to left result out.new }
{
    let mut at = Reached {
        read: node.children.at,
        to: node.to,
    };
    if left == 0 {
        return at;
    }
    for _ in 0..node.children.count {
        let child = write_node(s, at, filling, out);
        at = replace(s, &child, filling, out, left - 1);
    }
    at
}

// Writes the expression at `at` with the words of s in the range `value` for each free variable x, and answers the
// cursor. For `out` and `to` see write::cursor::put_word.
pub fn substitute(
    s: &[u16],
    at: usize,
    x: u16,
    value: Range<usize>,
    out: &mut [u16],
    to: usize,
) -> usize
    requires { value.end ≤ length s.now }
    ensures { Substitutes s.now at x value.start value.end out.old to result out.new }
{
    let filling = &Filling {
        x,
        value: part_of(s, value),
    };
    let node = write_node(s, Reached { read: at, to }, filling, out);
    replace(s, &node, filling, out, s.len()).to
}
