// The words that begin a node: the tags of expressions and those of types.
ghost use Rattle.std.specs.Prelude.{◌≡◌, leb};
ghost use Rattle.words.specs.Tags.{word_of, TagTold, TypeTagTold};

// The first word of an expression, from 0.
#[derive(Clone, Copy, PartialEq, Eq, Debug)]
pub enum Tag {
    Unit,
    False,
    True,
    Number,
    Variable,
    Location,
    Revision,
    Lambda,
    Apply,
    If,
    Ref,
    Read,
    Assign,
    Fork,
    Join,
    Add,
    Subtract,
    Less,
}

impl Tag {
    // The tag that the word is. An Option and no TryFrom: an error could only say that the word is none. The numbers
    // stand here alone: words are u16 in buffers that C lends, and no cast makes an enum of one.
    pub fn of(word: u16) -> Option<Tag>
        ensures { TagTold word result }
    {
        match word {
            0 => Some(Tag::Unit),
            1 => Some(Tag::False),
            2 => Some(Tag::True),
            3 => Some(Tag::Number),
            4 => Some(Tag::Variable),
            5 => Some(Tag::Location),
            6 => Some(Tag::Revision),
            7 => Some(Tag::Lambda),
            8 => Some(Tag::Apply),
            9 => Some(Tag::If),
            10 => Some(Tag::Ref),
            11 => Some(Tag::Read),
            12 => Some(Tag::Assign),
            13 => Some(Tag::Fork),
            14 => Some(Tag::Join),
            15 => Some(Tag::Add),
            16 => Some(Tag::Subtract),
            17 => Some(Tag::Less),
            _ => None,
        }
    }

    // Is it the tag of a value? Those come first, up to the lambda's.
    pub fn is_value(self) -> bool
        ensures { result ≡ leb (word_of self) 7 }
    {
        self as u16 <= Tag::Lambda as u16
    }
}

// The first word of a type, from 32.
#[derive(Clone, Copy, PartialEq, Eq, Debug)]
pub enum TypeTag {
    Unit = 32,
    Bool,
    Number,
    Rev,
    Reference,
    Function,
}

impl TypeTag {
    // The tag that the word is, as Tag::of has it.
    pub fn of(word: u16) -> Option<TypeTag>
        ensures { TypeTagTold word result }
    {
        match word {
            32 => Some(TypeTag::Unit),
            33 => Some(TypeTag::Bool),
            34 => Some(TypeTag::Number),
            35 => Some(TypeTag::Rev),
            36 => Some(TypeTag::Reference),
            37 => Some(TypeTag::Function),
            _ => None,
        }
    }
}
