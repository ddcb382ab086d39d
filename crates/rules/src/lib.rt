// The rules on words: from an image and the place of work in it, the next image, written through a cursor.
#![tactic(auto)]

pub mod advance;
pub mod apply;
pub mod fork;
pub mod join;
pub mod local;
pub mod sections;
pub mod site;
pub mod splice;
pub mod stores;
