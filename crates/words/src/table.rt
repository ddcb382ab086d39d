// The constant table of tags: what follows each.
ghost use Rattle.std.specs.Prelude.{◌≡◌};
ghost use Rattle.words.specs.Rows.{row_of};

// What a tag begins.
#[derive(Clone, Copy, PartialEq, Eq, Debug)]
pub enum Kind {
    Expression,
    Type,
}

// What follows a tag: an own word below the limit, if there is one, then so many types, then so many expressions.
#[derive(Clone, Copy, PartialEq, Eq, Debug)]
pub struct Row {
    pub kind: Kind,
    pub limit: Option<u32>,
    pub types: usize,
    pub children: usize,
}

const CONSTANT: Row = Row {
    kind: Kind::Expression,
    limit: None,
    types: 0,
    children: 0,
};

const NUMBER: Row = Row {
    kind: Kind::Expression,
    limit: Some(65536),
    types: 0,
    children: 0,
};

// A variable or a location.
const NAME: Row = Row {
    kind: Kind::Expression,
    limit: Some(256),
    types: 0,
    children: 0,
};

const REVISION: Row = Row {
    kind: Kind::Expression,
    limit: Some(64),
    types: 0,
    children: 0,
};

const LAMBDA: Row = Row {
    kind: Kind::Expression,
    limit: Some(256),
    types: 1,
    children: 1,
};

const ONE: Row = Row {
    kind: Kind::Expression,
    limit: None,
    types: 0,
    children: 1,
};

const TWO: Row = Row {
    kind: Kind::Expression,
    limit: None,
    types: 0,
    children: 2,
};

const IF: Row = Row {
    kind: Kind::Expression,
    limit: None,
    types: 0,
    children: 3,
};

// The tags from 0, as `Tag` has them. A table for each kind, since the numbers between the two are no tags; static and
// not const, since a const array is built anew where it is read.
static EXPRESSIONS: [Row; 18] = [
    CONSTANT, CONSTANT, CONSTANT, NUMBER, NAME, NAME, REVISION, LAMBDA, TWO, IF, ONE, ONE, TWO,
    ONE, ONE, TWO, TWO, TWO,
];

const BASIC: Row = Row {
    kind: Kind::Type,
    limit: None,
    types: 0,
    children: 0,
};

const REFERENCE: Row = Row {
    kind: Kind::Type,
    limit: None,
    types: 1,
    children: 0,
};

const FUNCTION: Row = Row {
    kind: Kind::Type,
    limit: None,
    types: 2,
    children: 0,
};

// The tags from 32, as `TypeTag` has them.
static TYPES: [Row; 6] = [BASIC, BASIC, BASIC, BASIC, REFERENCE, FUNCTION];

// The row of a word, if it is a tag.
#[inline(always)]
pub fn row_at(tag: u16) -> Option<Row>
    ensures { result ≡ row_of tag }
{
    let i = tag as usize;
    match i {
        0..18 => Some(EXPRESSIONS[i]),
        32..38 => Some(TYPES[i - 32]),
        _ => None,
    }
}
