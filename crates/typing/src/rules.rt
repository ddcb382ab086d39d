// The rules of the check, on types that are held as positions.
// Hints on inlining: leaf, enter, leave and rule_one stand inline in `infer`, since out of line each is handed a Node of
// its own, which lies on the stack at every level; rule_two and rule_three do not, since what they need would lie there.
ghost use Rattle.std.specs.Prelude.{◌≡◌};
ghost use Rattle.typing.specs.Rulings.{Leafs, Enters, ended, RuleOne, Asks, RuleTwo, RuleThree};

use crate::CheckError;
use crate::buffers::put;
use crate::script::Node;
use crate::types::{Head, Held};
use words::reading::word_at;
use words::tags::Tag;
use words::walk::type_end;

// The position that stands for a node's type, and where the node ends.
#[derive(Clone, Copy, PartialEq, Eq, Debug)]
pub struct Typed {
    pub held: u16,
    pub end: u16,
}

// From here on the work buffer notes for each variable where its annotation stands, and 0 where it is not in scope;
// before it is a word for each word of the script, the link of the node there. Both are words of the one buffer that the
// caller of pulleyrush_check lends, so no Option; and one slice, since Scope (specs/Rulings.antt) reads one.
pub const SCOPE: usize = 2048;

// No child: unit, false, true, a number, a variable. A location and a revision have no type in a script.
#[inline(always)]
pub fn leaf(node: Node, work: &mut [u16]) -> Result<Typed, CheckError>
    ensures { Leafs node.entry.script.words.now node.entry.at work.old result work.new }
{
    let at = node.at;
    match node.tag {
        Tag::Unit | Tag::False | Tag::True => Ok(Typed {
            held: at,
            end: at + 1,
        }),
        Tag::Number => Ok(Typed {
            held: at,
            end: at + 2,
        }),
        Tag::Variable => {
            let place = word_at(work, SCOPE + node.name() as usize);
            if place == 0 {
                return Err(CheckError::NoType);
            }
            put(work, at as usize, place);
            Ok(Typed {
                held: at,
                end: at + 2,
            })
        }
        _ => Err(CheckError::NoType),
    }
}

// Where the first child starts. A lambda, if an annotation stands in it, notes where, and keeps what was noted before.
#[inline(always)]
pub fn enter(node: Node, work: &mut [u16]) -> Option<u16>
    ensures { Enters node.entry.script.words.now node.entry.at work.old result work.new }
{
    let at = node.at;
    let Tag::Lambda = node.tag else {
        return Some(at + 1);
    };
    let body = type_end(node.script.words, at as usize + 2)?;
    let note = SCOPE + node.name() as usize;
    let old = word_at(work, note);
    put(work, at as usize + 1, old);
    put(work, note, at + 2);
    Some(body as u16)
}

// After the first child: where its type is held becomes the node's link, and a lambda gives the scope back.
#[inline(always)]
pub fn leave(node: Node, work: &mut [u16], first: u16)
    ensures { work.new ≡ ended node.entry.script.words.now node.entry.at first work.old }
{
    let at = node.at as usize;
    let old = word_at(work, at + 1);
    put(work, at, first);
    if let Tag::Lambda = node.tag {
        put(work, SCOPE + node.name() as usize, old);
    }
}

// One child: lambda, ref, read, fork, join.
#[inline(always)]
pub fn rule_one(node: Node, links: &[u16], child: Typed) -> Result<Typed, CheckError>
    ensures { RuleOne node.entry.script.words.now links.now node.entry.at child.held child.end result }
{
    let Node { script, at, .. } = node;
    let end = child.end;
    let itself = Typed { held: at, end };
    let types = Held { script, links };
    match node.tag {
        // lambda: the function from its annotation to its body's type
        Tag::Lambda => Ok(itself),
        // read: what is referred to
        Tag::Read => match types.head(child.held).ok_or(CheckError::NoType)? {
            Head::Reference { rest } => Ok(Typed { held: rest, end }),
            _ => Err(CheckError::NoType),
        },
        // fork: rev, whatever its body's type
        Tag::Fork => Ok(itself),
        // join: unit, of a rev
        Tag::Join => match types.head(child.held).ok_or(CheckError::NoType)? {
            Head::Rev => Ok(itself),
            _ => Err(CheckError::NoType),
        },
        // ref: the reference to its child's type
        _ => Ok(itself),
    }
}

// The type that a node asks of its second child, and what it gives.
#[derive(Clone, Copy, PartialEq, Eq, Debug)]
pub struct Ask {
    pub want: u16,
    pub gives: u16,
}

// Apply asks for a function and its argument, assign for a reference and what it refers to, the others for numbers.
// A match in each arm: over the pair of tag and head, a proof does not know in the arm `(Tag::Apply, _)` what is ruled out.
fn ask_of(node: Node, first: u16, head: Head) -> Option<Ask>
    ensures { Asks node.entry.script.words.now node.entry.at first head result }
{
    let at = node.at;
    match node.tag {
        Tag::Apply => match head {
            Head::Function { argument, rest } => Some(Ask {
                want: argument,
                gives: rest,
            }),
            _ => None,
        },
        Tag::Assign => match head {
            Head::Reference { rest } => Some(Ask {
                want: rest,
                gives: at,
            }),
            _ => None,
        },
        _ => match head {
            Head::Number => Some(Ask {
                want: first,
                gives: at,
            }),
            _ => None,
        },
    }
}

// Two children: apply, assign, and the three on numbers. The first child's type is the node's link.
#[inline(never)]
pub fn rule_two(node: Node, links: &[u16], second: Typed) -> Result<Typed, CheckError>
    ensures { RuleTwo node.entry.script.words.now links.now node.entry.at second.held second.end result }
{
    let Node { script, at, .. } = node;
    let types = Held { script, links };
    let first = word_at(links, at as usize);
    let head = types.head(first).ok_or(CheckError::NoType)?;
    let Some(ask) = ask_of(node, first, head) else {
        return Err(CheckError::NoType);
    };
    if types.same(ask.want, second.held) {
        Ok(Typed {
            held: ask.gives,
            end: second.end,
        })
    } else {
        Err(CheckError::NoType)
    }
}

// Three children: if.
#[inline(never)]
pub fn rule_three(
    node: Node,
    links: &[u16],
    second: Typed,
    third: Typed,
) -> Result<Typed, CheckError>
    ensures { RuleThree node.entry.script.words.now links.now node.entry.at second.held third.held third.end result }
{
    let Node { script, at, .. } = node;
    let types = Held { script, links };
    let first = word_at(links, at as usize);
    let Head::Bool = types.head(first).ok_or(CheckError::NoType)? else {
        return Err(CheckError::NoType);
    };
    if types.same(second.held, third.held) {
        Ok(Typed {
            held: second.held,
            end: third.end,
        })
    } else {
        Err(CheckError::NoType)
    }
}
