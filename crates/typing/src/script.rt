// A script that is short enough to be checked, and a node of it.
ghost use Rattle.std.specs.Prelude.{◌≡◌, ◌+◌, ◌<◌, ◌≤◌, length, get_or};
ghost use Rattle.words.specs.Tags.{word_of};

use words::reading::word_at;
use words::tags::Tag;

// The words of a script: so few that each place in them is a word.
#[derive(Clone, Copy, PartialEq, Eq, Debug)]
pub struct Script<'a> {
    pub words: &'a [u16],
    pub ghost few: { length words.now ≤ 2048 },
}

// The node of the script that stands at `at`, by its tag.
#[derive(Clone, Copy, PartialEq, Eq, Debug)]
pub struct Node<'a> {
    pub script: Script<'a>,
    pub at: u16,
    pub tag: Tag,
    pub ghost inside: { at < length script.words.now },
    pub ghost is: { word_of tag ≡ get_or script.words.now at 0 },
}

impl<'a> Node<'a> {
    // The word after the tag: of a variable and of a lambda the variable's number.
    pub fn name(self) -> u16
        ensures { result ≡ get_or self.entry.script.words.now (self.entry.at + 1) 0 }
    {
        word_at(self.script.words, self.at as usize + 1)
    }
}
