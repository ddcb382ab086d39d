// Where a type and where an expression ends.
ghost use Rattle.std.specs.Prelude.{◌≡◌, ◌≤◌, length};
ghost use Rattle.calculus.specs.Reading.{type_end, end_of, expression_of};
ghost use Rattle.words.specs.Walks.{walk_of, front_of, kind_number, beginning_of, types_end, expressions_end, is_there};

use crate::table::{Kind, Row, row_at};

// A node whose tag and own word are right: its row, and where its types or children start.
#[derive(Clone, Copy, PartialEq, Eq, Debug)]
pub struct Front {
    pub row: Row,
    pub next: usize,
}

// The tag and the own word of a node of the kind that stands at `at`. It and `row_at` stand inline in the walks, since
// a row that is handed back whole makes them some three to seven times slower than one that is read where it stands.
#[inline(always)]
pub fn front_of_kind(s: &[u16], kind: Kind, at: usize) -> Option<Front>
    ensures { result ≡ front_of s.now kind at }
{
    let tag = *s.get(at)?;
    // The tags of types are those from 32 on. A walk knows its kind, so with this test, before the row, it has one table
    // to look in and not two. With a test of the row's kind in its place a load takes a third more instructions.
    if (kind == Kind::Type) != (32 <= tag) {
        return None;
    }
    let row = row_at(tag)?;
    let next = at + 1;
    let Some(limit) = row.limit else {
        return Some(Front { row, next });
    };
    let own = *s.get(next)? as u32;
    if own < limit {
        Some(Front {
            row,
            next: next + 1,
        })
    } else {
        None
    }
}

// What a word begins: its row, if it is a tag, and where what follows it starts.
#[derive(Clone, Copy, PartialEq, Eq, Debug)]
pub struct Beginning {
    pub row: Option<Row>,
    pub next: usize,
}

// The number of the kind of a word with that row; a word that is no tag has the number 0.
fn kind_number(row: Option<Row>) -> u8
    ensures { result ≡ kind_number row }
{
    let Some(tagged) = row else {
        return 0;
    };
    match tagged.kind {
        Kind::Expression => 1,
        Kind::Type => 2,
    }
}

// What the word at `at` begins, if it is of the kind with that number and its own word is right. The walks know the
// kind, so they call `front_of_kind`; this is for a caller that has a number, and answers every one.
pub fn front_at(s: &[u16], kind: u8, at: usize) -> Option<Beginning>
    ensures { result ≡ beginning_of s.now kind at }
{
    let tag = *s.get(at)?;
    let row = row_at(tag);
    if kind_number(row) != kind {
        return None;
    }
    let Some(tagged) = row else {
        let next = at + 1;
        return Some(Beginning { row: None, next });
    };
    let front = front_of_kind(s, tagged.kind, at)?;
    Some(Beginning {
        row: Some(front.row),
        next: front.next,
    })
}

// Where `n` types that stand one after the other from `at` on end: a loop that counts the types still to come.
pub fn types_end(s: &[u16], n: usize, at: usize) -> Option<usize>
    requires { n ≤ 2 }
    ensures { result ≡ walk_of (types_end s.now n at) }
{
    let mut pending = n;
    let mut p = at;
    // A while: what is read may bring more to come, so no range has the turns.
    while 0 < pending {
        let front = front_of_kind(s, Kind::Type, p)?;
        pending = pending - 1 + front.row.types;
        p = front.next;
    }
    Some(p)
}

// Where the type at `at` ends, if one stands there.
pub fn type_end(s: &[u16], at: usize) -> Option<usize>
    ensures { result ≡ walk_of (type_end s.now at) }
{
    types_end(s, 1, at)
}

// Where `n` expressions that stand one after the other from `at` on end. It calls itself for the children of each, as
// docs/DECISIONS.md has it.
fn expressions_end(s: &[u16], n: usize, at: usize) -> Option<usize>
    ensures { result ≡ walk_of (expressions_end s.now n at) }
{
    if n == 0 {
        return Some(at);
    }
    let front = front_of_kind(s, Kind::Expression, at)?;
    let body = types_end(s, front.row.types, front.next)?;
    let end = expressions_end(s, front.row.children, body)?;
    expressions_end(s, n - 1, end)
}

// Where the expression at `at` ends, if one stands there.
pub fn end_of(s: &[u16], at: usize) -> Option<usize>
    ensures { result ≡ walk_of (end_of s.now at) }
{
    expressions_end(s, 1, at)
}

// Are the words one well-formed expression?
pub fn is_expression(s: &[u16]) -> bool
    ensures { result ≡ is_there (expression_of s.now) }
{
    end_of(s, 0) == Some(s.len())
}
