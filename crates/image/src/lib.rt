// Images: where the parts of a state stand in its words, which words are an image, and which numbers are in use.
#![tactic(auto)]

pub mod fresh;
pub mod items;
pub mod marks;
pub mod nodes;
pub mod parts;
pub mod report;
pub mod taken;
pub mod used;
pub mod valid;
