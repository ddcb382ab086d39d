// Is an expression closed? One walk over its words, in time linear in them and at most 256 calls deep.
ghost use Rattle.std.specs.Prelude.{◌≡◌};
ghost use Rattle.words.specs.Walks.{walk_of, closed_end_of};
ghost use Rattle.words.specs.Scopes.{node_of, closed_end};

use crate::reading::word_at;
use crate::table::Kind;
use crate::tags::Tag;
use crate::walk::{front_of_kind, type_end};

// What a node asks of the variables in scope, and where the words after its own part start.
#[derive(Clone, Copy, PartialEq, Eq, Debug)]
enum Node {
    // so many children, in the same scope
    Plain { children: usize, next: usize },
    Variable { x: usize, next: usize },
    // its body, where that variable is in scope too
    Binder { x: usize, body: usize },
}

// The node at `at`, a binder with its type. The binder is the one node with a type.
// By the row and the word, and no match on Tag: so node_of (specs/Scopes.antt) tells it.
fn node_at(s: &[u16], at: usize) -> Option<Node>
    ensures { result ≡ node_of s.now at }
{
    let front = front_of_kind(s, Kind::Expression, at)?;
    let next = front.next;
    if front.row.types != 0 {
        let body = type_end(s, next)?;
        let x = word_at(s, at + 1) as usize;
        return Some(Node::Binder { x, body });
    }
    if word_at(s, at) == Tag::Variable as u16 {
        let x = word_at(s, at + 1) as usize;
        return Some(Node::Variable { x, next });
    }
    let children = front.row.children;
    Some(Node::Plain { children, next })
}

// Where the expression at `at` ends, if one stands there and its free variables are in scope.
// It calls itself only where a variable comes into scope, so at most 256 calls deep; all that is still to come
// within a call has the same scope, so it is only counted.
fn closed_in(s: &[u16], at: usize, scope: [bool; 256]) -> Option<usize>
    ensures { result ≡ walk_of (closed_end s.now scope at) }
{
    let mut pending: usize = 1;
    let mut p = at;
    // A while: what is read may bring more to come, so no range has the turns.
    while 0 < pending {
        let node = node_at(s, p)?;
        match node {
            Node::Plain { children, next } => {
                pending = pending - 1 + children;
                p = next;
            }
            Node::Variable { x, next } => {
                if !scope[x] {
                    return None;
                }
                pending -= 1;
                p = next;
            }
            Node::Binder { x, body } => {
                if scope[x] {
                    p = body;
                } else {
                    let mut inner = scope;
                    inner[x] = true;
                    let end = closed_in(s, body, inner)?;
                    pending -= 1;
                    p = end;
                }
            }
        }
    }
    Some(p)
}

// Where the expression at `at` ends, if one stands there and it is closed.
pub fn closed_end_of(s: &[u16], at: usize) -> Option<usize>
    ensures { result ≡ walk_of (closed_end_of s.now at) }
{
    closed_in(s, at, [false; 256])
}
