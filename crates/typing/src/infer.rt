// The type of an expression: the check calls itself for each child, with fewer words left.
ghost use Rattle.typing.specs.Inferring.{Infers, Goes};

use crate::CheckError;
use crate::rules::{Typed, enter, leaf, leave, rule_one, rule_three, rule_two};
use crate::script::{Node, Script};
use words::table::row_at;
use words::tags::Tag;

// The type of the expression at `at`, which has at most `left` words: a child has fewer than its parent.
// `left` is counted down since it bounds the calls for any words, also those that are no expression.
// A child's answer is taken apart by `let .. else`: a form that the project fixed for this place (docs/DECISIONS.md).
#[cycle(infer_others)]
pub fn infer(script: Script, at: u16, left: u16, work: &mut [u16]) -> Result<Typed, CheckError>
    ensures { Infers script.entry.words.now at left work.old result work.new }
{
    let i = at as usize;
    let words = script.words;
    if words.len() <= i || left == 0 {
        return Err(CheckError::NotFormed);
    }
    let Some(row) = row_at(words[i]) else {
        return Err(CheckError::NotFormed);
    };
    let Some(tag) = Tag::of(words[i]) else {
        return Err(CheckError::NotFormed);
    };
    let node = Node { script, at, tag };
    if row.children == 0 {
        return leaf(node, work);
    }
    let Some(start) = enter(node, work) else {
        return Err(CheckError::NotFormed);
    };
    let answer = infer(script, start, left - 1, work);
    let Ok(first) = answer else {
        return answer;
    };
    leave(node, work, first.held);
    if row.children == 1 {
        return rule_one(node, work, first);
    }
    others(node, left - 1, work, first.end)
}

// The same for a node with two or three children, of which the first has been checked and ends at `from`.
// Inline, so that each level takes one frame of the stack and not two.
#[cycle(infer_others)]
#[inline(always)]
fn others(node: Node, left: u16, work: &mut [u16], from: u16) -> Result<Typed, CheckError>
    ensures { Goes node.entry.script.words.now node.entry.at left work.old from result work.new }
{
    let script = node.script;
    let answer = infer(script, from, left, work);
    let Ok(second) = answer else {
        return answer;
    };
    let Tag::If = node.tag else {
        return rule_two(node, work, second);
    };
    let answer = infer(script, second.end, left, work);
    let Ok(third) = answer else {
        return answer;
    };
    rule_three(node, work, second, third)
}
