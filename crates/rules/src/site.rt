// Where a revision works, and what comes of a step there.

// Of revision `revision`: where its snapshot's count, its local store's count and its expression start, and its redex.
// The words are passed beside it: a Site is Copy and plain numbers, and every rule hands the words on alone, to image,
// place and write.
// Working (specs/Work.antt) is asked for by each rule and is no invariant: each asks for another tag, in those words.
#[derive(Clone, Copy, PartialEq, Eq, Debug)]
pub struct Site {
    pub revision: u16,
    pub snapshot: usize,
    pub local: usize,
    pub expression: usize,
    pub place: usize,
}

// A step taken: the cursor after the next image (past the buffer's end where there is no room), or the empty state.
#[derive(Clone, Copy, PartialEq, Eq, Debug)]
pub enum Moved {
    To(usize),
    Emptied,
}

// Why an expression is stuck: no rule fits its shape, or the location is not in view.
#[derive(Clone, Copy, PartialEq, Eq, Debug)]
pub enum Reason {
    Shape,
    Location,
}

// Why there is no step.
#[derive(Clone, Copy, PartialEq, Eq, Debug)]
pub enum Refusal {
    Finished,
    Waits,
    Stuck(Reason),
    NotLive,
    NoNumber,
}
