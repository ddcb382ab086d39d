// Types held as positions of the script, never copied: the tag at a position says which type it stands for.
ghost use Rattle.std.specs.Prelude.{◌≡◌, ◌+◌, ◌≤◌, length};
ghost use Rattle.typing.specs.Held.{Named, HeadIn, head_if, basic_of, Headed, SameHeads, SameTypes, head_tag, head_rest};
ghost use Rattle.words.specs.Tags.{word_of};

use crate::script::Script;
use words::reading::word_at;
use words::tags::{Tag, TypeTag};
use words::walk::type_end;

// What a type is at its front.
#[derive(Clone, Copy, PartialEq, Eq, Debug)]
pub enum Head {
    Unit,
    Bool,
    Number,
    Rev,
    // where what it refers to is held
    Reference { rest: u16 },
    // where its argument is written, and where its result is held
    Function { argument: u16, rest: u16 },
}

impl Head {
    // The first word of the type.
    pub fn tag(self) -> TypeTag
        ensures { result ≡ head_tag self }
    {
        match self {
            Head::Unit => TypeTag::Unit,
            Head::Bool => TypeTag::Bool,
            Head::Number => TypeTag::Number,
            Head::Rev => TypeTag::Rev,
            Head::Reference { .. } => TypeTag::Reference,
            Head::Function { .. } => TypeTag::Function,
        }
    }

    // Where the rest of the type is held, if it has one.
    pub fn rest(self) -> Option<u16>
        ensures { result ≡ head_rest self }
    {
        match self {
            Head::Reference { rest } | Head::Function { rest, .. } => Some(rest),
            _ => None,
        }
    }
}

// The words of the type that is written at `at`: that part of the script's own words.
#[tactic(auto, using(crate::proofs::Ends::ends_after, crate::proofs::Ends::ends_in))]
pub fn named(s: &[u16], at: usize) -> &[u16]
    ensures { Named s.now at result.now }
{
    match type_end(s, at) {
        Some(end) => &s[at..end],
        None => &[],
    }
}

// The head of a type whose words stand at the front of the part, which starts at p.
#[tactic(auto, using(crate::proofs::Ends::ends_in, crate::proofs::Meaning::first_words))]
fn head_in(part: &[u16], p: u16) -> Option<Head>
    requires { p + length part.now ≤ 65535 }
    ensures { HeadIn part.now p result }
{
    match TypeTag::of(word_at(part, 0))? {
        TypeTag::Unit => Some(Head::Unit),
        TypeTag::Bool => Some(Head::Bool),
        TypeTag::Number => Some(Head::Number),
        TypeTag::Rev => Some(Head::Rev),
        TypeTag::Reference => Some(Head::Reference { rest: p + 1 }),
        TypeTag::Function => {
            let end = type_end(part, 1)?;
            Some(Head::Function {
                argument: p + 1,
                rest: p + end as u16,
            })
        }
    }
}

// The basic type that a node with this tag has, if it has one whatever its children are.
#[tactic(auto, using(crate::proofs::Meaning::basic_tags))]
fn basic_of(tag: Tag) -> Option<Head>
    ensures { result ≡ head_if (basic_of (word_of tag)) }
{
    match tag {
        Tag::Unit | Tag::Assign | Tag::Join => Some(Head::Unit),
        Tag::False | Tag::True | Tag::Less => Some(Head::Bool),
        Tag::Number | Tag::Add | Tag::Subtract => Some(Head::Number),
        Tag::Fork => Some(Head::Rev),
        _ => None,
    }
}

// The script, and the links: for each word of it where the rest of the type is held that the node there has.
#[derive(Clone, Copy, PartialEq, Eq, Debug)]
pub struct Held<'a> {
    pub script: Script<'a>,
    pub links: &'a [u16],
}

impl<'a> Held<'a> {
    // The head of the type that is held at p: of a type that is written there, or of the node there.
    // A variable's is read from its annotation; a lambda's and a reference's rest is held where its link says.
    pub fn head(self, p: u16) -> Option<Head>
        ensures { Headed self.entry.script.words.now self.entry.links.now p result }
    {
        let words = self.script.words;
        let i = p as usize;
        let Some(tag) = Tag::of(word_at(words, i)) else {
            return head_in(&words[i..], p);
        };
        let link = word_at(self.links, i);
        match tag {
            Tag::Variable => head_in(named(words, link as usize), link),
            Tag::Lambda => Some(Head::Function {
                argument: p + 2,
                rest: link,
            }),
            Tag::Ref => Some(Head::Reference { rest: link }),
            _ => basic_of(tag),
        }
    }

    // Are they equal but for what is left of them? Of functions the arguments are compared as parts of the script.
    fn same_heads(self, a: Head, b: Head) -> bool
        ensures { SameHeads self.entry.script.words.now a b result }
    {
        let Head::Function { argument: p, .. } = a else {
            return a.tag() == b.tag();
        };
        let Head::Function { argument: q, .. } = b else {
            return false;
        };
        let words = self.script.words;
        named(words, p as usize) == named(words, q as usize)
    }

    // Are the types at p and at q the same words? A type of n words has at most n heads.
    // `done` is named for the loop's invariant, which says how many heads were alike.
    pub fn same(self, p: u16, q: u16) -> bool
        ensures { SameTypes self.entry.script.words.now self.entry.links.now p q result }
    {
        let mut p = p;
        let mut q = q;
        for done in 0..4096usize {
            let (Some(a), Some(b)) = (self.head(p), self.head(q)) else {
                return false;
            };
            if !self.same_heads(a, b) {
                return false;
            }
            let (Some(next_p), Some(next_q)) = (a.rest(), b.rest()) else {
                return true;
            };
            p = next_p;
            q = next_q;
        }
        false
    }
}
