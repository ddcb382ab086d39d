// Writing the parts of the next image: words through a cursor, the overlay of two stores, a store with one entry more.
#![tactic(auto)]

pub mod cursor;
pub mod entry;
pub mod overlay;
